//! Sound code for a query. It was compiled, so it isn't checked.

ghost use Rattle.std.specs.Prelude.{◌≡◌, true, not, IfOk, IfSome, OnOk};
ghost use Rattle.ap_codecheck.specs.Rules.{IsSound};
ghost use Rattle.ap_codecheck.specs.Tables.{GoesOnBehind, IsKeptOf};
ghost use Rattle.ap_codegen.specs.KeptCode.{IsKept, code_of, has_one_of};
ghost use Rattle.ap_instr.specs.Code.{Compiled};
ghost use Rattle.ap_instr.specs.StandsFor.{StandsForQuery};

use ap_codecheck::{KeptTables, Sound};
use ap_codegen::{Kept, compile};
use ap_instr::Code;
use ap_term::{NoMemory, Program, Query};
use std::alloc::Global;
use std::marker::Model;

/// Sound code for a program beside a query, with its groups.
pub fn sound_code(alloc: Global, program: &Program, query: &Query) -> Result<Sound, NoMemory>
    ensures { IfOk result (λ sound. StandsForQuery sound program.now query.now) }
{
    let code = compile(alloc, program, query)?;
    Sound::of_sound(alloc, code)
}

/// A program's code that is kept, and its tables: none while a query's code goes on behind it, or where they depend on what stands there.
#[derive(Drop)]
pub struct KeptCode {
    code: Kept,
    tables: Option<KeptTables>,
}

impl Model for KeptCode {
    ghost use Rattle.std.specs.Prelude.{IfSome};
    ghost use Rattle.ap_codecheck.specs.Tables.{IsKeptOf};
    ghost use Rattle.ap_codegen.specs.declared.kept.Kept.{Kept};
    ghost use Rattle.ap_codegen.specs.KeptCode.{code_of};

    ghost Value = { Kept };

    ghost view = { λ a. a.code };

    ghost invariant = { λ a. IfSome a.tables (IsKeptOf (code_of a.code)) };
}

/// Sound code for a query, and whether it goes on behind the code that is kept of the program.
#[derive(Drop)]
pub struct Beside {
    pub sound: Sound,
    pub is_behind: bool,
}

/// Sound code that goes on behind other code, by the tables of that, where there are any.
fn sound_behind(alloc: Global, code: Code, tables: Option<KeptTables>) -> Result<Sound, NoMemory>
    requires sound { IsSound code }
    requires tables { (base : Compiled) × GoesOnBehind code base × IfSome tables (IsKeptOf base) }
    ensures { IfOk result (λ sound. sound ≡ code) }
{
    match tables {
        Some(kept) => Sound::beside(alloc, code, kept),
        None => Sound::of_sound(alloc, code),
    }
}

/// The tables of code that is kept, taken back from code that went on behind it.
fn tables_back(kept: &Kept, sound: Sound) -> Option<KeptTables>
    requires { GoesOnBehind sound (code_of kept.now) }
    ensures { IfSome result (IsKeptOf (code_of kept.now)) }
{
    sound.into_kept(kept.extent())
}

impl KeptCode {
    /// Compiles a program.
    pub fn of(alloc: Global, program: &Program) -> Result<KeptCode, NoMemory>
        ensures { IfOk result (λ kept. IsKept kept program.now) }
    {
        let kept = Kept::of(alloc, program)?;
        let code = kept.code(alloc)?;
        let tables = KeptTables::of(alloc, &code)?;
        Ok(KeptCode { code: kept, tables })
    }

    /// Sound code for the program beside a query, with their groups. It goes on behind the program's just where that has no predicate of the
    /// query's clauses; it has that one's tables then, which `take_back` takes.
    pub fn beside(
        &mut self,
        alloc: Global,
        program: &Program,
        query: &Query,
    ) -> Result<Beside, NoMemory>
        requires { IsKept self.old program.now }
        ensures stands { IfOk result (λ found. StandsForQuery found.sound program.now query.now) }
        ensures behind { IfOk result (λ found. found.is_behind ≡ true → GoesOnBehind found.sound (code_of self.old)) }
        ensures apart { IfOk result (λ found. has_one_of self.old query.now ≡ not found.is_behind) }
        ensures same { OnOk result (self.new ≡ self.old) }
    {
        let tables = self.tables.take();
        let Some(code) = self.code.beside(alloc, query)? else {
            self.tables = tables;
            let sound = sound_code(alloc, program, query)?;
            return Ok(Beside {
                sound,
                is_behind: false,
            });
        };
        let sound = sound_behind(alloc, code, tables)?;
        Ok(Beside {
            sound,
            is_behind: true,
        })
    }

    /// Takes the tables back from the code for a query.
    pub fn take_back(&mut self, beside: Beside)
        requires { beside.is_behind ≡ true → GoesOnBehind beside.sound (code_of self.old) }
        ensures { self.new ≡ self.old }
    {
        let Beside { sound, is_behind } = beside;
        if is_behind {
            self.tables = tables_back(&self.code, sound);
        }
    }
}
