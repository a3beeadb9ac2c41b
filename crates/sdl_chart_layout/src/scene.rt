//! What is drawn of a run, and on whose lifeline.
use sdl_chart_drawing::Wanted;
use sdl_chart_page::{ByOrigin, Lists, Page, Row};
use sdl_chart_text::{Chart, Left, States};
use sdl_instances_packed_log::{Shown, Shows};
use sdl_routes::{EndPoint, Routes};
use sdl_run_outcome::EnvOut;
use sdl_signal::{GateId, Item, Pid, RouteId, SetId};
use sdl_structure_parts::Structure;

/// Whose lifeline it is.
#[derive(Clone, Copy, PartialEq, Eq)]
pub(crate) enum Key {
    /// A gate of the system.
    Gate(GateId),
    Instance(SetId, u32),
    /// All instances of a set.
    Set(SetId),
    /// All instances of sets that are not kept, and the gates that only they speak to.
    Others,
}

/// An event of a run.
#[derive(Drop)]
pub(crate) enum Told<'a> {
    Logged(Shown<'a>),
    Received(&'a Item),
    Put(&'a EnvOut),
}

/// The event of a row.
pub(crate) fn told_of<'a, K: Shows>(lists: &Lists<'a, K>, row: Row) -> Option<Told<'a>> {
    let logs = lists.logs;
    let blocks = logs.len();
    if row.list < blocks {
        let event = logs[row.list].event(row.number)?;
        Some(Told::Logged(event))
    } else if row.list == blocks {
        let item = lists.received.get(row.number)?;
        Some(Told::Received(item))
    } else {
        let output = lists.put.get(row.number)?;
        Some(Told::Put(output))
    }
}

/// What a layout reads of a chart.
#[derive(Clone, Copy)]
pub(crate) struct Scene<'a> {
    pub structure: &'a Structure,
    pub routes: &'a Routes,
    pub states: &'a States,
    pub page: &'a Page,
    pub left: &'a ByOrigin<Left>,
    pub wanted: Wanted<'a>,
}

impl<'a> Scene<'a> {
    pub(crate) fn of<K>(chart: &Chart<'a, K>, wanted: &Wanted<'a>) -> Scene<'a> {
        Scene {
            structure: chart.structure,
            routes: chart.routes,
            states: chart.states,
            page: chart.page,
            left: chart.left,
            wanted: *wanted,
        }
    }

    /// Whether each set is kept.
    pub(crate) fn keeps_all(&self) -> bool {
        self.wanted.only.is_empty()
    }

    /// Whether the set is kept.
    fn keeps(&self, set: SetId) -> bool {
        self.keeps_all() || self.wanted.only.iter().any(|s| s.0 == set.0)
    }

    /// Whether the Pid is that of an instance of a set that is kept.
    fn keeps_pid(&self, pid: Pid) -> bool {
        match pid {
            Pid::Inst(set, _) => self.keeps(set),
            Pid::Env => false,
            Pid::Null => false,
        }
    }

    /// Whether the route ends at a set that is kept.
    fn keeps_end(&self, route: RouteId) -> bool {
        match self.routes.get(route) {
            Some(found) => match found.end {
                EndPoint::Set(set) => self.keeps(set),
                EndPoint::Environment(_) => false,
            },
            None => false,
        }
    }

    /// Whether an item is drawn: it comes from a set that is kept, or goes to one.
    pub(crate) fn concerns(&self, item: &Item) -> bool {
        self.keeps_all() || self.keeps_pid(item.sender) || self.keeps_end(item.route)
    }

    /// Whose lifeline an instance has.
    pub(crate) fn key_of(&self, pid: Pid) -> Option<Key> {
        match pid {
            Pid::Inst(set, serial) => {
                if !self.keeps(set) {
                    Some(Key::Others)
                } else if self.wanted.by_set {
                    Some(Key::Set(set))
                } else {
                    Some(Key::Instance(set, serial))
                }
            }
            Pid::Env => None,
            Pid::Null => None,
        }
    }

    /// On whose lifeline the environment outputs an item.
    fn start_key(&self, item: &Item) -> Key {
        match self.routes.get(item.route) {
            Some(route) if self.concerns(item) => Key::Gate(route.start),
            _ => Key::Others,
        }
    }

    /// On whose lifeline the environment receives an item.
    fn end_key(&self, item: &Item) -> Key {
        match self.routes.get(item.route) {
            Some(route) if self.concerns(item) => Key::Gate(route.end_gate),
            _ => Key::Others,
        }
    }

    /// On whose lifeline an output of the environment stands.
    pub(crate) fn put_key(&self, output: &EnvOut) -> Key {
        match output {
            EnvOut::Sent(item) => self.start_key(item),
            EnvOut::NoRoute(_, line) => {
                if self.keeps_all() {
                    Key::Gate(line.gate)
                } else {
                    Key::Others
                }
            }
        }
    }

    /// On whose lifeline an event stands. A discard stands on that of the instance that TO named.
    pub(crate) fn key_at(&self, told: &Told) -> Option<Key> {
        match told {
            Told::Logged(Shown::Entered(_, pid)) => self.key_of(*pid),
            Told::Logged(Shown::Discarded(item, _)) => self.key_of(item.to.unwrap_or(Pid::Null)),
            Told::Logged(Shown::Turn { pid, .. }) => self.key_of(*pid),
            Told::Received(item) => Some(self.end_key(item)),
            Told::Put(output) => Some(self.put_key(output)),
        }
    }
}
