//! Reading the blocks and their sets.
ghost use Rattle.std.specs.Prelude.{◌≡◌, ◌+◌, ◌<◌, ◌≤◌, ◌↔◌, [], ◌∷◌, length, map, take, slice_get, All, IfOk, IfErr, OnOk, IsSomeAnd, IsTrue, true};
ghost use Rattle.toml.specs.View.{view};
ghost use Rattle.sdl_structure_tables.specs.Keys.{is_key};
ghost use Rattle.sdl_structure_tables.specs.Tables.{tables_at, table_in, is_table, HasKindAt};
ghost use Rattle.sdl_structure_tables.specs.Versions.{most_blocks};
ghost use Rattle.sdl_structure_tables.specs.Blocks.{blocks_of, block_tables, listed_in, inner_tables};
ghost use Rattle.sdl_structure_tables.specs.Places.{names_before, block_place};
ghost use Rattle.sdl_structure_tables.specs.Faults.{IsBroken, so_far};
ghost use Rattle.sdl_structure_tables.specs.Walks.{file_of, own, IsHere, name_texts};
ghost use Rattle.sdl_structure.specs.Drafts.{HasSignals, HasSets, IsSetRead, ComesTo, HasRead, HasBegun, HasInside, HasKindsWithin, Grows, entering, entering_in, tables_of};

use super::draft::Draft;
use super::gates::read_gates;
use sdl_signal::{BlockId, SetId};
use sdl_structure_parts::limits::{MOST_DEPTH, MOST_INSTANCES, MOST_SETS};
use sdl_structure_parts::{Block, Channel, Owner, Scope, Set};
use sdl_structure_tables::{FileFault, Key, Part, Version, Walk};
use std::alloc::Global;
use toml::Value;

/// Where the blocks of a list lie.
#[derive(Clone, Copy)]
struct Around {
    scope: Scope,
    /// How deep they lie.
    depth: u32,
}

impl Draft {
    /// The blocks of the top table, with all that stands in them. It answers the channels in them, block by block.
    pub fn read_blocks(&mut self, alloc: Global, top: &Walk) -> Result<Vec<Channel>, FileFault>
        requires here { IsHere top.now }
        requires part { top.now.place.part ≡ Part.System }
        requires read { ComesTo (file_of top.now) self.old Scope.System 1 (tables_at Key.Block (file_of top.now)) }
        requires none { (length self.old.blocks.items ≡ 0) × (self.old.listed_blocks ≡ 0) }
        ensures kind { OnOk result (HasKindAt (own top.now) Key.Block) }
        ensures read { IfOk result (λ channels. HasRead (file_of top.now) self.old Scope.System 1 (tables_at Key.Block (file_of top.now)) channels.items self.new) }
        ensures some { OnOk result ((0 < length self.new.blocks.items) × (length self.new.blocks.items ≤ most_blocks top.now.version)) }
        ensures fault { IfErr result (IsBroken (file_of top.now)) }
    {
        let tables = top.some_tables(Key::Block)?;
        let around = Around {
            scope: Scope::System,
            depth: 1,
        };
        self.read_list(alloc, top, tables, around)
    }

    /// The blocks of the list at the key `block` of a block of version 2, in which there is a set or a block.
    #[cycle(blocks)]
    fn read_inner_blocks(
        &mut self,
        alloc: Global,
        walk: &Walk,
        block: BlockId,
        depth: u32,
        has_sets: bool,
    ) -> Result<Vec<Channel>, FileFault>
        requires here { IsHere walk.now }
        requires place { walk.now.place ≡ block_place block.0 }
        requires number { length self.old.blocks.items ≡ block.0 + 1 }
        requires second { walk.now.version ≡ Version.Two }
        requires sets { IsTrue has_sets ↔ (0 < length (tables_at Key.Set (own walk.now))) }
        requires set_kind { HasKindAt (own walk.now) Key.Set }
        requires depth { IsSomeAnd (slice_get (blocks_of (file_of walk.now)) block.0) (λ x. x.depth ≡ depth) }
        requires shallow { depth ≤ 4 }
        requires counted { self.old.listed_blocks ≡ length (tables_at Key.Block (file_of walk.now)) + listed_in walk.now.version (take block.0 (block_tables (file_of walk.now))) }
        requires few { self.old.listed_blocks ≤ most_blocks walk.now.version }
        requires read { ComesTo (file_of walk.now) self.old (Scope.Block block) (depth + 1) (tables_at Key.Block (own walk.now)) }
        ensures kind { OnOk result (HasKindAt (own walk.now) Key.Block) }
        ensures some { OnOk result (0 < length (tables_at Key.Set (own walk.now)) + length (tables_at Key.Block (own walk.now))) }
        ensures deepest { OnOk result (depth ≡ 4 → tables_at Key.Block (own walk.now) ≡ []) }
        ensures read { IfOk result (λ channels. HasRead (file_of walk.now) self.old (Scope.Block block) (depth + 1) (tables_at Key.Block (own walk.now)) channels.items self.new) }
        ensures counted { OnOk result (self.new.listed_blocks ≡ self.old.listed_blocks + length (tables_at Key.Block (own walk.now)) + listed_in walk.now.version (tables_of (entering (file_of walk.now) self.old (Scope.Block block) (depth + 1) (tables_at Key.Block (own walk.now))))) }
        ensures few { OnOk result (self.new.listed_blocks ≤ most_blocks walk.now.version) }
        ensures fault { IfErr result (IsBroken (file_of walk.now)) }
    {
        let tables = walk.tables(Key::Block)?;
        if depth >= MOST_DEPTH && !tables.is_empty() {
            return Err(FileFault::TooMany(walk.at(Key::Block)));
        }
        if !has_sets && tables.is_empty() {
            return Err(FileFault::OutOfRange(walk.at(Key::Block)));
        }
        let around = Around {
            scope: Scope::Block(block),
            depth: depth + 1,
        };
        self.read_list(alloc, walk, tables, around)
    }

    /// The blocks of the list at the key `block`, with all that stands in them. All of them count before the first is read.
    #[cycle(blocks)]
    fn read_list<'a>(
        &mut self,
        alloc: Global,
        walk: &Walk<'a>,
        tables: &'a [Value],
        around: Around,
    ) -> Result<Vec<Channel>, FileFault>
        requires here { IsHere walk.now }
        requires tables { tables_at Key.Block (own walk.now) ≡ map table_in tables.now }
        requires each { All (λ v. is_table (view v) ≡ true) tables.now }
        requires listed { is_key walk.now.version walk.now.place.part Key.Block ≡ true }
        requires depth { (1 ≤ around.depth) × (around.depth ≤ 5) × (around.depth ≡ 5 → tables.now ≡ []) }
        requires counted { self.old.listed_blocks + length tables.now ≡ so_far (file_of walk.now) walk.now.place.part Key.Block walk.now.place.block }
        requires all { so_far (file_of walk.now) walk.now.place.part Key.Block walk.now.place.block ≡ length (tables_at Key.Block (file_of walk.now)) + listed_in walk.now.version (take (length self.old.blocks.items) (block_tables (file_of walk.now))) }
        requires few { self.old.listed_blocks ≤ most_blocks walk.now.version }
        requires read { ComesTo (file_of walk.now) self.old around.scope around.depth (map table_in tables.now) }
        ensures read { IfOk result (λ channels. HasRead (file_of walk.now) self.old around.scope around.depth (map table_in tables.now) channels.items self.new) }
        ensures counted { OnOk result (self.new.listed_blocks ≡ self.old.listed_blocks + length tables.now + listed_in walk.now.version (tables_of (entering (file_of walk.now) self.old around.scope around.depth (map table_in tables.now)))) }
        ensures few { OnOk result (self.new.listed_blocks ≤ most_blocks walk.now.version) }
        ensures fault { IfErr result (IsBroken (file_of walk.now)) }
    {
        if self.listed_blocks + tables.len() > walk.version.most_blocks() {
            return Err(FileFault::TooMany(walk.at(Key::Block)));
        }
        self.listed_blocks += tables.len();
        let mut channels = Vec::new(alloc);
        for value in tables {
            let inner = walk.inner_block(value, self.blocks.len());
            let mut more = self.read_block(alloc, &inner, around)?;
            channels.append(&mut more)?;
        }
        Ok(channels)
    }

    /// A block, with all that stands in it. It answers the channels that lie in it, and then those in its blocks.
    #[cycle(blocks)]
    fn read_block(
        &mut self,
        alloc: Global,
        walk: &Walk,
        around: Around,
    ) -> Result<Vec<Channel>, FileFault>
        requires here { IsHere walk.now }
        requires place { walk.now.place ≡ block_place (length self.old.blocks.items) }
        requires depth { (1 ≤ around.depth) × (around.depth ≤ 4) }
        requires counted { self.old.listed_blocks ≡ length (tables_at Key.Block (file_of walk.now)) + listed_in walk.now.version (take (length self.old.blocks.items) (block_tables (file_of walk.now))) }
        requires few { self.old.listed_blocks ≤ most_blocks walk.now.version }
        requires read { ComesTo (file_of walk.now) self.old around.scope around.depth (own walk.now ∷ []) }
        ensures read { IfOk result (λ channels. HasRead (file_of walk.now) self.old around.scope around.depth (own walk.now ∷ []) channels.items self.new) }
        ensures counted { OnOk result (self.new.listed_blocks ≡ self.old.listed_blocks + listed_in walk.now.version (tables_of (entering (file_of walk.now) self.old around.scope around.depth (own walk.now ∷ [])))) }
        ensures few { OnOk result (self.new.listed_blocks ≤ most_blocks walk.now.version) }
        ensures fault { IfErr result (IsBroken (file_of walk.now)) }
    {
        let block = BlockId(self.blocks.len() as u32);
        let name = walk.new_name(&mut self.agent_names)?;
        self.blocks.push(Block {
            name,
            scope: around.scope,
            depth: around.depth,
        })?;
        let mut gates = read_gates(alloc, walk, Owner::Block(block), self.signals.as_slice())?;
        self.gates.append(&mut gates)?;
        let mut inner = self.read_inside(alloc, walk, block, around.depth)?;
        let mut channels = self.read_channels(alloc, walk, Scope::Block(block))?;
        walk.only_known_keys()?;
        channels.append(&mut inner)?;
        Ok(channels)
    }

    /// The sets of the block, and then the blocks in it. It answers the channels in those.
    #[cycle(blocks)]
    fn read_inside(
        &mut self,
        alloc: Global,
        walk: &Walk,
        block: BlockId,
        depth: u32,
    ) -> Result<Vec<Channel>, FileFault>
        requires here { IsHere walk.now }
        requires place { walk.now.place ≡ block_place block.0 }
        requires depth { (1 ≤ depth) × (depth ≤ 4) }
        requires counted { self.old.listed_blocks ≡ length (tables_at Key.Block (file_of walk.now)) + listed_in walk.now.version (take block.0 (block_tables (file_of walk.now))) }
        requires few { self.old.listed_blocks ≤ most_blocks walk.now.version }
        requires begun { HasBegun (file_of walk.now) self.old block.0 depth (own walk.now) }
        ensures kinds { OnOk result (HasKindsWithin walk.now.version (own walk.now)) }
        ensures some { OnOk result (0 < length (tables_at Key.Set (own walk.now)) + length (inner_tables walk.now.version (own walk.now))) }
        ensures deepest { OnOk result (depth ≡ 4 → inner_tables walk.now.version (own walk.now) ≡ []) }
        ensures read { IfOk result (λ channels. HasInside (file_of walk.now) self.old block.0 depth (own walk.now) channels.items self.new) }
        ensures counted { OnOk result (self.new.listed_blocks ≡ self.old.listed_blocks + length (inner_tables walk.now.version (own walk.now)) + listed_in walk.now.version (tables_of (entering_in (file_of walk.now) block.0 depth (own walk.now)))) }
        ensures few { OnOk result (self.new.listed_blocks ≤ most_blocks walk.now.version) }
        ensures fault { IfErr result (IsBroken (file_of walk.now)) }
    {
        match walk.version {
            Version::One => {
                let tables = walk.some_tables(Key::Set)?;
                self.read_sets(alloc, walk, tables, block)?;
                Ok(Vec::new(alloc))
            }
            Version::Two => {
                let tables = walk.tables(Key::Set)?;
                self.read_sets(alloc, walk, tables, block)?;
                self.read_inner_blocks(alloc, walk, block, depth, !tables.is_empty())
            }
        }
    }

    /// The sets of the block.
    fn read_sets<'a>(
        &mut self,
        alloc: Global,
        walk: &Walk<'a>,
        tables: &'a [Value],
        block: BlockId,
    ) -> Result<(), FileFault>
        requires here { IsHere walk.now }
        requires place { walk.now.place ≡ block_place block.0 }
        requires tables { tables_at Key.Set (own walk.now) ≡ map table_in tables.now }
        requires each { All (λ v. is_table (view v) ≡ true) tables.now }
        requires signals { HasSignals (file_of walk.now) self.old }
        requires read { HasSets (file_of walk.now) (take block.0 (block_tables (file_of walk.now))) (own walk.now) [] self.old }
        requires few { length self.old.sets.items ≤ 64 }
        ensures read { OnOk result (HasSets (file_of walk.now) (take block.0 (block_tables (file_of walk.now))) (own walk.now) (tables_at Key.Set (own walk.now)) self.new) }
        ensures few { OnOk result (length self.new.sets.items ≤ 64) }
        ensures grows { OnOk result (Grows self.old self.new) }
        ensures frame { self.new ≡ record self.old { sets = self.new.sets; gates = self.new.gates; agent_names = self.new.agent_names } }
        ensures fault { IfErr result (IsBroken (file_of walk.now)) }
    {
        if self.sets.len() + tables.len() > MOST_SETS {
            return Err(FileFault::TooMany(walk.at(Key::Set)));
        }
        for (index, value) in tables.iter().enumerate() {
            self.read_set(alloc, &walk.inner(Key::Set, value, index), block)?;
        }
        Ok(())
    }

    fn read_set(&mut self, alloc: Global, walk: &Walk, block: BlockId) -> Result<(), FileFault>
        requires here { IsHere walk.now }
        requires part { walk.now.place.part ≡ Part.Set }
        requires signals { HasSignals (file_of walk.now) self.old }
        requires few { length self.old.sets.items < 64 }
        requires before { name_texts self.old.agent_names.items ≡ names_before (file_of walk.now) walk.now.place }
        ensures set { OnOk result (IsSetRead block.0 self.old (own walk.now) self.new) }
        ensures frame { self.new ≡ record self.old { sets = self.new.sets; gates = self.new.gates; agent_names = self.new.agent_names } }
        ensures fault { IfErr result (IsBroken (file_of walk.now)) }
    {
        let name = walk.new_name(&mut self.agent_names)?;
        let initial = walk.integer_or(Key::Initial, 1)? as u32;
        let maximum = walk.integer_or(Key::Maximum, MOST_INSTANCES)? as u32;
        let owner = Owner::Set(SetId(self.sets.len() as u32));
        let mut gates = read_gates(alloc, walk, owner, self.signals.as_slice())?;
        walk.only_known_keys()?;
        self.gates.append(&mut gates)?;
        self.sets.push(Set {
            name,
            block,
            initial,
            maximum,
        })?;
        Ok(())
    }
}
