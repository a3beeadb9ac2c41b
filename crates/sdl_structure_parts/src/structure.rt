//! A whole structure.
ghost use Rattle.std.specs.Prelude.{◌≡◌, ◌+◌, ◌<◌, ◌≤◌, [], ◌∷◌, ◌++◌, length, map, filter_map, All, IfOk, OnOk, IsTrue, ◌↔◌};
ghost use Rattle.sdl_signal.specs.Names.{IsName};
ghost use Rattle.sdl_structure_parts.specs.Structure.{IsStructure, lexicon_of, system_gate_name, declared_signal, HasLegalNames};
ghost use Rattle.sdl_structure_parts.specs.Lists.{structure_of};
ghost use Rattle.sdl_structure_parts.specs.Rules.{IsBlockGate};

use crate::parts::{Block, Channel, Gate, Owner, Set, SignalDecl};
use arrayvec::ArrayVec;
use sdl_signal::{GateId, Name, Names, Sort};
use std::alloc::{AllocError, Global};
use std::marker::Model;

/// The lists of a structure. The number of each part is its place in its list.
#[derive(Drop)]
pub struct Lists {
    pub signals: Vec<SignalDecl>,
    pub blocks: Vec<Block>,
    pub sets: Vec<Set>,
    /// Those of the system come first.
    pub gates: Vec<Gate>,
    pub channels: Vec<Channel>,
}

/// A system's structure, as its file gives it.
#[derive(Drop)]
pub struct Structure {
    system: Name,
    budget: u32,
    signals: Vec<SignalDecl>,
    blocks: Vec<Block>,
    sets: Vec<Set>,
    gates: Vec<Gate>,
    channels: Vec<Channel>,
    names: Names,
}

impl Model for Structure {
    ghost use Rattle.std.specs.Prelude.{◌≡◌};
    ghost use Rattle.sdl_structure_parts.specs.Structure.{Structure as Parts, lexicon_of, IsStructure};

    ghost Value = { Parts };

    ghost view = { λ s. record {
      system = s.system.bytes;
      budget = s.budget;
      signals = s.signals.items;
      blocks = s.blocks.items;
      sets = s.sets.items;
      gates = s.gates.items;
      channels = s.channels.items;
    } };

    ghost invariant = { λ s.
        let parts : Parts = record {
          system = s.system.bytes;
          budget = s.budget;
          signals = s.signals.items;
          blocks = s.blocks.items;
          sets = s.sets.items;
          gates = s.gates.items;
          channels = s.channels.items;
        } in
        (s.names ≡ lexicon_of parts) × IsStructure parts };
}

impl Structure {
    /// The structure of these lists. The error is that there is no memory for the names of its parts.
    pub fn new(
        alloc: Global,
        system: Name,
        budget: u32,
        lists: Lists,
    ) -> Result<Structure, AllocError>
        requires structure { IsStructure (structure_of system budget lists) }
        requires legal { HasLegalNames (structure_of system budget lists) }
        ensures ok { IfOk result (λ s. s ≡ structure_of system budget lists) }
    {
        let mut names = Names::new(alloc);
        add_gates(&mut names, lists.gates.as_slice())?;
        add_signals(&mut names, lists.signals.as_slice())?;
        add_sets(&mut names, lists.sets.as_slice())?;
        let Lists {
            signals,
            blocks,
            sets,
            gates,
            channels,
        } = lists;
        Ok(Structure {
            system,
            budget,
            signals,
            blocks,
            sets,
            gates,
            channels,
            names,
        })
    }

    /// Every structure keeps its limits, and what one part names of the others is there.
    pub fn parts_agree(&self)
        ensures { IsStructure self.now }
    {
        let _names = &self.names;
    }

    /// The signals, at most 64. A signal's number is its place here.
    pub fn signals(&self) -> &[SignalDecl]
        ensures { result.now ≡ self.now.signals }
    {
        self.signals.as_slice()
    }

    /// The blocks, at most 64, each behind the block in which it lies. A block's number is its place here.
    pub fn blocks(&self) -> &[Block]
        ensures { result.now ≡ self.now.blocks }
    {
        self.blocks.as_slice()
    }

    /// The sets of process instances, at most 64. A set's number is its place here.
    pub fn sets(&self) -> &[Set]
        ensures { result.now ≡ self.now.sets }
    {
        self.sets.as_slice()
    }

    /// The gates of the system, and then those of blocks and sets, at most 8 for each of these on average; one that is read from a
    /// file has at most 8. A gate's number is its place here.
    pub fn gates(&self) -> &[Gate]
        ensures { result.now ≡ self.now.gates }
    {
        self.gates.as_slice()
    }

    /// Whether the gate is one of a block.
    pub fn is_block_gate(&self, gate: GateId) -> bool
        ensures { IsTrue result ↔ IsBlockGate self.now gate }
    {
        match self.gates().get(gate.0 as usize) {
            Some(gate) => matches!(gate.owner, Owner::Block(_)),
            None => false,
        }
    }

    /// The channels, at most 64. A channel's number is its place here.
    pub fn channels(&self) -> &[Channel]
        ensures { result.now ≡ self.now.channels }
    {
        self.channels.as_slice()
    }

    /// The name of the system.
    pub fn system(&self) -> &str
        ensures { result.now ≡ self.now.system }
    {
        self.system.as_str()
    }

    /// How many transitions each block may make in a run.
    pub fn budget(&self) -> u32
        ensures { result ≡ self.now.budget }
    {
        self.budget
    }

    /// The names of the system's gates, of the signals and of the sets, for lines of the environment.
    pub fn names(&self) -> &Names
        ensures { result.now ≡ lexicon_of self.now }
    {
        &self.names
    }
}

fn add_gates(names: &mut Names, gates: &[Gate]) -> Result<(), AllocError>
    requires legal { All (λ g. IsName g.name.bytes) gates.now }
    requires few { length names.old.gates + length gates.now < 65536 }
    ensures ok { OnOk result (names.new ≡ record names.old { gates = names.old.gates ++ filter_map system_gate_name gates.now }) }
{
    for gate in gates {
        add_gate(names, gate)?;
    }
    Ok(())
}

fn add_gate(names: &mut Names, gate: &Gate) -> Result<(), AllocError>
    requires legal { IsName gate.now.name.bytes }
    requires few { length names.old.gates < 65536 }
    ensures ok { OnOk result (names.new ≡ record names.old { gates = names.old.gates ++ filter_map system_gate_name (gate.now ∷ []) }) }
{
    match gate.owner {
        Owner::System => names.add_gate(gate.name),
        Owner::Block(_) => Ok(()),
        Owner::Set(_) => Ok(()),
    }
}

fn add_signals(names: &mut Names, signals: &[SignalDecl]) -> Result<(), AllocError>
    requires legal { All (λ x. IsName x.name.bytes) signals.now }
    requires few { length names.old.signals + length signals.now < 65536 }
    ensures ok { OnOk result (names.new ≡ record names.old { signals = names.old.signals ++ map declared_signal signals.now }) }
{
    for signal in signals {
        names.add_signal(signal.name, copied(&signal.sorts))?;
    }
    Ok(())
}

fn add_sets(names: &mut Names, sets: &[Set]) -> Result<(), AllocError>
    requires legal { All (λ t. IsName t.name.bytes) sets.now }
    requires few { length names.old.sets + length sets.now < 65536 }
    ensures ok { OnOk result (names.new ≡ record names.old { sets = names.old.sets ++ map (λ t. t.name.bytes) sets.now }) }
{
    for set in sets {
        names.add_set(set.name)?;
    }
    Ok(())
}

fn copied(sorts: &ArrayVec<Sort, 4>) -> ArrayVec<Sort, 4>
    ensures { result.items ≡ sorts.now.items }
{
    let mut copy = ArrayVec::new();
    for sort in sorts.as_slice() {
        copy.push(*sort);
    }
    copy
}
