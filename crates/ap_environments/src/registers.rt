//! Registers that are written all at once. Those of most code are few: its X registers are as many as code has at least, and up to
//! twelve Y registers are written without a call.

ghost use Rattle.std.specs.Prelude.{◌≡◌, length, replicate};

#[inline(never)]
fn clear_many(registers: &mut [u32])
    ensures { registers.new ≡ replicate (length registers.old) 0 }
{
    registers.fill(0);
}

/// As many X registers as code has at least. Others are written in a loop.
const FEW: usize = 16;

/// Puts 0 into all X registers.
#[inline(always)]
pub fn clear_x(registers: &mut [u32])
    ensures { registers.new ≡ replicate (length registers.old) 0 }
{
    if registers.len() == FEW {
        registers.fill(0);
    } else {
        clear_many(registers);
    }
}

/// Puts 0 into all Y registers.
#[inline(always)]
pub fn clear_y(registers: &mut [u32])
    ensures { registers.new ≡ replicate (length registers.old) 0 }
{
    match registers.len() {
        0 => {}
        1 => registers.fill(0),
        2 => registers.fill(0),
        3 => registers.fill(0),
        4 => registers.fill(0),
        5 => registers.fill(0),
        6 => registers.fill(0),
        7 => registers.fill(0),
        8 => registers.fill(0),
        9 => registers.fill(0),
        10 => registers.fill(0),
        11 => registers.fill(0),
        12 => registers.fill(0),
        _ => clear_many(registers),
    }
}

#[inline(never)]
fn copy_many(registers: &mut [u32], places: &[u32])
    requires { length registers.old ≡ length places.now }
    ensures { registers.new ≡ places.now }
{
    registers.copy_from_slice(places);
}

/// Puts places into as many X registers.
#[inline(always)]
pub fn copy_x(registers: &mut [u32], places: &[u32])
    requires { length registers.old ≡ length places.now }
    ensures { registers.new ≡ places.now }
{
    if places.len() == FEW {
        registers.copy_from_slice(places);
    } else {
        copy_many(registers, places);
    }
}

/// Puts places into as many registers, of which there are so many.
#[inline(always)]
fn copy_count(registers: &mut [u32], places: &[u32], count: usize)
    requires registers { length registers.old ≡ count }
    requires places { length places.now ≡ count }
    ensures { registers.new ≡ places.now }
{
    registers[..count].copy_from_slice(&places[..count]);
}

/// Puts places into as many Y registers, or arguments into as many X registers.
#[inline(always)]
pub fn copy_few(registers: &mut [u32], places: &[u32])
    requires { length registers.old ≡ length places.now }
    ensures { registers.new ≡ places.now }
{
    match places.len() {
        0 => {}
        1 => copy_count(registers, places, 1),
        2 => copy_count(registers, places, 2),
        3 => copy_count(registers, places, 3),
        4 => copy_count(registers, places, 4),
        5 => copy_count(registers, places, 5),
        6 => copy_count(registers, places, 6),
        7 => copy_count(registers, places, 7),
        8 => copy_count(registers, places, 8),
        9 => copy_count(registers, places, 9),
        10 => copy_count(registers, places, 10),
        11 => copy_count(registers, places, 11),
        12 => copy_count(registers, places, 12),
        _ => copy_many(registers, places),
    }
}
