//! The registers of a pixel at its start.
ghost use Rattle.std.specs.Prelude.{◌≡◌, if◌then◌else◌};
ghost use Rattle.transform.specs.Parts.{row_at};
ghost use Rattle.engine.specs.Start.{given_word, start_word, start_registers};

use crate::settings::Settings;
use number::kind::NumberKind;
use transform::Row;

// The word that the register of row i is given, before it is admitted.
fn given_word(row: Row, i: u16, uniforms: &[u32], inputs: &[u32]) -> u32
    ensures { result ≡ given_word uniforms.now inputs.now row i }
{
    if row.is_in() {
        inputs.get(usize::from(row.channel)).copied().unwrap_or(0)
    } else if row.is_uniform() {
        uniforms.get(usize::from(i)).copied().unwrap_or(row.word)
    } else {
        row.word
    }
}

// The word as a register holds it: admitted where the register holds a number.
pub(crate) fn admitted<K: NumberKind>(is_number: bool, word: u32) -> u32
    ensures { result ≡ (if is_number then K.NumberKind.meaning.admit word else word) }
{
    if is_number { K::admit(word) } else { word }
}

// The word that the register of row i starts with.
fn start_word<K: NumberKind>(settings: &Settings, i: u16, inputs: &[u32]) -> u32
    ensures { result ≡ start_word K.NumberKind.meaning settings.now.uniforms.now inputs.now (row_at settings.now.transform.rows.now i) i }
{
    let row = settings.transform.row_at(i);
    let word = given_word(row, i, settings.uniforms, inputs);
    admitted::<K>(row.is_number(), word)
}

// All registers at the start.
pub(crate) fn start_registers<K: NumberKind>(settings: &Settings, inputs: &[u32]) -> [u32; 64]
    ensures { result ≡ start_registers K.NumberKind.meaning settings.now.transform.rows.now settings.now.uniforms.now inputs.now }
{
    // No from_fn: of 64 calls the check keeps no tie to the settings that the closure holds.
    let mut registers = [0; 64];
    for (i, register) in registers.iter_mut().enumerate() {
        *register = start_word::<K>(settings, i as u16, inputs);
    }
    registers
}
