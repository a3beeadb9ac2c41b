//! Reading the structure file. The format, its keys and its rules are this project's own (docs/FORMATS.md).
ghost use Rattle.std.specs.Prelude.{◌≡◌, ◌≢◌, ◌⊎◌, IfOk, IfErr, Err, None, IsSomeAnd};
ghost use Rattle.toml.specs.Parse.{parse_document};
ghost use Rattle.sdl_structure.specs.File.{IsFileOf};
ghost use Rattle.sdl_structure_tables.specs.Faults.{IsBroken};

mod blocks;
mod channels;
mod draft;
mod file;
mod gates;

use sdl_structure_parts::Structure;
pub use sdl_structure_tables::{FileFault, Key, Part, Place};
use std::alloc::Global;

/// Reads the text of a structure file. Memory is answered only where a growth was refused. Each table of the text, also one that a
/// dotted key makes, costs the parser up to 1.2 KB, so that a text of 1 MB that is nothing but these costs some 600 MB.
/// (This project's own.)
pub fn read_structure(alloc: Global, text: &str) -> Result<Structure, FileFault>
    ensures ok { IfOk result (λ s. IsSomeAnd (parse_document text.now) (λ table. IsFileOf table s)) }
    ensures not_toml { IfErr result (λ f. f ≡ FileFault.NotToml → parse_document text.now ≡ None) }
    ensures no_table { parse_document text.now ≡ None → (result ≡ Err FileFault.NotToml) ⊎ (result ≡ Err FileFault.Memory) }
    ensures broken { IfErr result (λ f. f ≢ FileFault.NotToml → f ≢ FileFault.Memory → IsSomeAnd (parse_document text.now) (λ table. IsBroken table f)) }
{
    match toml::table_from_str(alloc, text) {
        Ok(table) => file::read_system(alloc, &table),
        Err(error) => {
            if error.is_memory() {
                Err(FileFault::Memory)
            } else {
                Err(FileFault::NotToml)
            }
        }
    }
}
