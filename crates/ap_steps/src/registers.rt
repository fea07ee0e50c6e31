//! Registers that hold places of cells.

ghost use Rattle.std.specs.Prelude.{◌≡◌, ℕ, ◌<◌, length};
ghost use Rattle.ap_instr.specs.Runs.{read, set, set_x, set_y};
ghost use Rattle.ap_needs.specs.Needs.{HasRegister};
ghost use Rattle.ap_steps.specs.Moves.{held, HoldPlaces};

use ap_instr::Slot;

/// What an argument register holds; place 0 past the last one.
#[inline]
pub fn argument(registers: &[u32], number: u32) -> u32
    ensures { result ≡ held registers.now number }
{
    match registers.get(number as usize) {
        Some(place) => *place,
        None => 0,
    }
}

/// What an X or Y register holds.
#[inline]
pub fn register(x: &[u32], y: &[u32], v: Slot) -> u32
    ensures { result ≡ read v (held x.now) (held y.now) }
{
    match v {
        Slot::X(n) => argument(x, n),
        Slot::Y(n) => argument(y, n as u32),
    }
}

/// The place that an argument register holds.
#[inline]
pub fn place_in(registers: &[u32], number: u32) -> usize
    ensures { result ≡ held registers.now number }
{
    argument(registers, number) as usize
}

/// The place that an X or Y register holds.
#[inline]
pub fn read(x: &[u32], y: &[u32], v: Slot) -> usize
    ensures { result ≡ read v (held x.now) (held y.now) }
{
    register(x, y, v) as usize
}

/// Puts a place into a register.
#[inline]
pub fn put(registers: &mut [u32], number: usize, place: u32)
    requires { number < length registers.old }
    ensures held { (w : ℕ) → held registers.new w ≡ set (held registers.old) number place w }
    ensures len { length registers.new ≡ length registers.old }
{
    registers[number] = place;
}

/// Puts a place into an X or Y register.
#[inline]
pub fn write(x: &mut [u32], y: &mut [u32], v: Slot, place: u32)
    requires { HasRegister v (length x.old) (length y.old) }
    ensures x { (w : ℕ) → held x.new w ≡ set_x v place (held x.old) w }
    ensures y { (w : ℕ) → held y.new w ≡ set_y v place (held y.old) w }
    ensures x_len { length x.new ≡ length x.old }
    ensures y_len { length y.new ≡ length y.old }
{
    match v {
        Slot::X(n) => put(x, n as usize, place),
        Slot::Y(n) => put(y, n as usize, place),
    }
}
