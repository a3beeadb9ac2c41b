//! Reading the channels of the system or of a block, and the ends that they name.
ghost use Rattle.std.specs.Prelude.{◌≡◌, ◌≢◌, ◌+◌, ◌<◌, ◌≤◌, ◌↔◌, [], ◌∷◌, ◌++◌, length, slice_get, count_by, All, AllPairs, IfOk, IfErr, IfSome, IfNone, OnOk, IsSomeAnd, IsTrue, Some, true};
ghost use Rattle.std.specs.List.{AllZip, HoldsAt};
ghost use Rattle.toml.specs.Data.{as_str};
ghost use Rattle.toml.specs.View.{view};
ghost use Rattle.sdl_structure_tables.specs.Keys.{is_key, keys_of, channel_keys};
ghost use Rattle.sdl_structure_tables.specs.Tables.{elements_at, tables_at, names_of, channel_names, is_text, HasKindAt};
ghost use Rattle.sdl_structure_tables.specs.Places.{names_before};
ghost use Rattle.sdl_structure_tables.specs.Names.{HasOneDot, is_dot, agent_part, gate_part};
ghost use Rattle.sdl_structure.specs.File.{IsChannelTable, IsAgent, IsBlockIn, NamesEnd, channels_in};
ghost use Rattle.sdl_structure.specs.File as file;
ghost use Rattle.sdl_structure_tables.specs.Faults.{IsBroken, IsOfFile, so_far};
ghost use Rattle.sdl_structure_tables.specs.Walks.{file_of, own, IsHere, name_texts};
ghost use Rattle.sdl_structure.specs.Drafts.{ServesChannels, IsScope, IsChannelScope, blocks_before, HasGateOf};

use super::draft::Draft;
use sdl_signal::GateId;
use sdl_structure_parts::limits::MOST_CHANNELS;
use sdl_structure_parts::{Block, Channel, End, Gate, Owner, Scope, Set, Side};
use sdl_structure_tables::{FileFault, Key, Walk, count_dots, read_signal_list, text_of};
use std::alloc::Global;
use toml::Value;

impl Draft {
    /// The channels that lie in the scope whose table it is. Those of the draft are counted with them.
    pub fn read_channels(
        &mut self,
        alloc: Global,
        walk: &Walk,
        scope: Scope,
    ) -> Result<Vec<Channel>, FileFault>
        requires here { IsHere walk.now }
        requires scope { IsScope scope walk.now.place }
        requires serves { ServesChannels (file_of walk.now) scope (own walk.now) self.old }
        requires names { name_texts self.old.channel_names.items ≡ channel_names (blocks_before (file_of walk.now) scope) }
        requires apart { AllPairs (λ a b. a ≢ b) (name_texts self.old.channel_names.items) }
        requires few { length self.old.channel_names.items ≤ 64 }
        requires counted { length self.old.channel_names.items + length (tables_at Key.Channel (own walk.now)) ≡ so_far (file_of walk.now) walk.now.place.part Key.Channel walk.now.place.block }
        ensures kind { IfOk result (λ _. HasKindAt (own walk.now) Key.Channel) }
        ensures read { IfOk result (λ channels. AllZip (IsChannelTable self.old.signals.items self.old.blocks.items self.old.sets.items self.old.gates.items) (channels_in scope (own walk.now)) channels.items) }
        ensures names { OnOk result (name_texts self.new.channel_names.items ≡ channel_names (blocks_before (file_of walk.now) scope) ++ names_of (tables_at Key.Channel (own walk.now))) }
        ensures apart { OnOk result (AllPairs (λ a b. a ≢ b) (name_texts self.new.channel_names.items)) }
        ensures few { OnOk result (length self.new.channel_names.items ≤ 64) }
        ensures frame { self.new ≡ record self.old { channel_names = self.new.channel_names } }
        ensures fault { IfErr result (IsBroken (file_of walk.now)) }
    {
        let tables = walk.tables(Key::Channel)?;
        if self.channel_names.len() + tables.len() > MOST_CHANNELS {
            return Err(FileFault::TooMany(walk.at(Key::Channel)));
        }
        let mut channels = Vec::new(alloc);
        for (index, value) in tables.iter().enumerate() {
            let channel = self.read_channel(&walk.inner(Key::Channel, value, index), scope)?;
            channels.push(channel)?;
        }
        Ok(channels)
    }

    fn read_channel(&mut self, walk: &Walk, scope: Scope) -> Result<Channel, FileFault>
        requires here { IsHere walk.now }
        requires scope { IsChannelScope (file_of walk.now) scope walk.now.place self.old }
        requires before { name_texts self.old.channel_names.items ≡ names_before (file_of walk.now) walk.now.place }
        ensures read { IfOk result (IsChannelTable self.old.signals.items self.old.blocks.items self.old.sets.items self.old.gates.items (scope, own walk.now)) }
        ensures joined { IfOk result (λ c. self.new.channel_names.items ≡ self.old.channel_names.items ++ c.name ∷ []) }
        ensures apart { IfOk result (λ c. All (λ m. m.bytes ≢ c.name.bytes) self.old.channel_names.items) }
        ensures frame { self.new ≡ record self.old { channel_names = self.new.channel_names } }
        ensures fault { IfErr result (IsBroken (file_of walk.now)) }
    {
        let name = walk.new_name(&mut self.channel_names)?;
        let (first, second) = self.read_ends(walk, scope)?;
        let forth = read_signal_list(walk, Key::Forth, self.signals.as_slice())?;
        let back = read_signal_list(walk, Key::Back, self.signals.as_slice())?;
        let nodelay = walk.flag(Key::Nodelay)?;
        walk.only_known_keys()?;
        Ok(Channel {
            name,
            scope,
            first,
            second,
            forth,
            back,
            nodelay,
        })
    }

    fn read_ends(&self, walk: &Walk, scope: Scope) -> Result<(End, End), FileFault>
        requires here { IsHere walk.now }
        requires scope { IsChannelScope (file_of walk.now) scope walk.now.place self.now }
        ensures kind { IfOk result (λ _. HasKindAt (own walk.now) Key.Ends) }
        ensures read { IfOk result (λ ends. AllZip (NamesEnd self.now.blocks.items self.now.sets.items self.now.gates.items scope) (elements_at Key.Ends (own walk.now)) (ends.0 ∷ ends.1 ∷ [])) }
        ensures fault { IfErr result (IsBroken (file_of walk.now)) }
        ensures of_file { IfErr result IsOfFile }
    {
        let texts = walk.texts(Key::Ends)?;
        if texts.len() != 2 {
            return Err(FileFault::OutOfRange(walk.at(Key::Ends)));
        }
        if !has_one_dot(&texts[0]) {
            return Err(FileFault::BadName(walk.at(Key::Ends)));
        }
        if !has_one_dot(&texts[1]) {
            return Err(FileFault::BadName(walk.at(Key::Ends)));
        }
        match self.end_of(scope, &texts[0]) {
            None => Err(FileFault::UnknownName(walk.at(Key::Ends))),
            Some(first) => match self.end_of(scope, &texts[1]) {
                None => Err(FileFault::UnknownName(walk.at(Key::Ends))),
                Some(second) => Ok((first, second)),
            },
        }
    }

    /// The end that the text names.
    fn end_of(&self, scope: Scope, value: &Value) -> Option<End>
        requires text { is_text (view value.now) ≡ true }
        requires dot { IsSomeAnd (as_str (view value.now)) HasOneDot }
        requires few { length self.now.gates.items < 65536 }
        ensures found { IfSome result (NamesEnd self.now.blocks.items self.now.sets.items self.now.gates.items scope (view value.now)) }
        ensures none { IfNone result (IsSomeAnd (as_str (view value.now)) (λ text. ¬ HasGateOf self.now scope (agent_part text) (gate_part text))) }
    {
        let text = text_of(value);
        let (agent, gate) = split_end(text);
        match self.gate_number(scope, agent, gate) {
            Some(number) => {
                let side = side_in(scope, self.gates[number].owner);
                Some(End {
                    gate: GateId(number as u32),
                    side,
                })
            }
            None => None,
        }
    }

    fn gate_number(&self, scope: Scope, agent: &str, gate: &str) -> Option<usize>
        ensures found { IfSome result (λ i. (i < length self.now.gates.items) × HoldsAt (λ g. (g.name.bytes ≡ gate.now) × IsAgent self.now.blocks.items self.now.sets.items scope agent.now g.owner) self.now.gates.items i) }
        ensures none { IfNone result (All (λ g. ¬ ((g.name.bytes ≡ gate.now) × IsAgent self.now.blocks.items self.now.sets.items scope agent.now g.owner)) self.now.gates.items) }
    {
        self.gates
            .iter()
            .position(|g| self.is_gate(scope, agent, gate, g))
    }

    fn is_gate(&self, scope: Scope, agent: &str, gate: &str, g: &Gate) -> bool
        ensures { IsTrue result ↔ ((g.now.name.bytes ≡ gate.now) × IsAgent self.now.blocks.items self.now.sets.items scope agent.now g.now.owner) }
    {
        g.name.as_str() == gate && self.is_agent(scope, agent, g.owner)
    }

    /// Tells whether the channels in the scope know this agent by the name.
    fn is_agent(&self, scope: Scope, agent: &str, owner: Owner) -> bool
        ensures { IsTrue result ↔ IsAgent self.now.blocks.items self.now.sets.items scope agent.now owner }
    {
        match scope {
            Scope::System => match owner {
                Owner::System => agent == "env",
                Owner::Block(block) => self.is_block(block.0 as usize, scope, agent),
                Owner::Set(_) => false,
            },
            Scope::Block(around) => match owner {
                Owner::System => false,
                Owner::Block(block) => {
                    (block == around && agent == "env")
                        || self.is_block(block.0 as usize, scope, agent)
                }
                Owner::Set(set) => self.is_set(set.0 as usize, around.0, agent),
            },
        }
    }

    /// Tells whether the block of this number lies in the scope and has this name.
    fn is_block(&self, number: usize, scope: Scope, agent: &str) -> bool
        ensures { IsTrue result ↔ IsBlockIn self.now.blocks.items scope agent.now (record { 0 = number }) }
    {
        if number < self.blocks.len() {
            is_block_of(&self.blocks[number], scope, agent)
        } else {
            false
        }
    }

    fn is_set(&self, number: usize, block: u32, agent: &str) -> bool
        ensures { IsTrue result ↔ IsSomeAnd (slice_get self.now.sets.items number) (λ x. (x.block.0 ≡ block) × (x.name.bytes ≡ agent.now)) }
    {
        if number < self.sets.len() {
            is_set_of(&self.sets[number], block, agent)
        } else {
            false
        }
    }
}

fn is_block_of(block: &Block, scope: Scope, name: &str) -> bool
    ensures { IsTrue result ↔ ((block.now.scope ≡ scope) × (block.now.name.bytes ≡ name.now)) }
{
    block.scope == scope && block.name.as_str() == name
}

fn is_set_of(set: &Set, block: u32, name: &str) -> bool
    ensures { IsTrue result ↔ ((set.now.block.0 ≡ block) × (set.now.name.bytes ≡ name.now)) }
{
    set.block.0 == block && set.name.as_str() == name
}

/// The side of the gate of this owner at which a channel in the scope ends.
fn side_in(scope: Scope, owner: Owner) -> Side
    ensures { result ≡ file.side_in scope owner }
{
    match (scope, owner) {
        (Scope::System, Owner::System) => Side::Inner,
        (Scope::Block(around), Owner::Block(block)) if block == around => Side::Inner,
        _ => Side::Outer,
    }
}

fn has_one_dot(value: &Value) -> bool
    requires { is_text (view value.now) ≡ true }
    ensures { IsTrue result ↔ IsSomeAnd (as_str (view value.now)) HasOneDot }
{
    count_dots(text_of(value).as_bytes()) == 1
}

/// The text before its first dot, and the text after it.
fn split_end(text: &str) -> (&str, &str)
    requires { HasOneDot text.now }
    ensures agent { result.0.now ≡ agent_part text.now }
    ensures gate { result.1.now ≡ gate_part text.now }
{
    match text.split_once('.') {
        Some((agent, gate)) => (agent, gate),
        None => unreachable!(),
    }
}
