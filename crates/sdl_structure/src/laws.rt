//! What holds of every file. These functions do nothing: they carry the proofs.
ghost use Rattle.std.specs.Prelude.{◌≢◌};
ghost use Rattle.toml.specs.Data.{Members};
ghost use Rattle.sdl_structure_parts.specs.Structure.{Structure};
ghost use Rattle.sdl_structure_tables.specs.Faults.{IsBroken};
ghost use Rattle.sdl_structure.specs.File.{IsFileOf};

use sdl_structure_tables::{FileFault, Place};

/// In a file that names a structure, each table has the keys that it must have, and no other key. What they hold is of
/// their types.
pub fn tables_have_their_keys()
    ensures missing { (root : Members) (s : Structure) (p : Place) → IsFileOf root s → ¬ IsBroken root (FileFault.MissingKey p) }
    ensures wrong { (root : Members) (s : Structure) (p : Place) → IsFileOf root s → ¬ IsBroken root (FileFault.WrongType p) }
    ensures unknown { (root : Members) (s : Structure) (p : Place) → IsFileOf root s → ¬ IsBroken root (FileFault.UnknownKey p) }
{}

/// A file that names a structure breaks no rule: no fault but a refusal of memory fits it at any place.
pub fn no_rule_is_broken()
    ensures { (root : Members) (s : Structure) (fault : FileFault) → IsFileOf root s → fault ≢ FileFault.Memory → ¬ IsBroken root fault }
{}
