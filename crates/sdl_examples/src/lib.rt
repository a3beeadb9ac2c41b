//! The structure files of five small systems, as texts: those of the folder `examples`, in a shorter layout.
#![tactic(auto)]

pub const ECHO: &str = "version = 1
system = 'Echo'
signal = [{ name = 'ping', sorts = ['Integer'] }, { name = 'pong', sorts = ['Integer'] }]
gate = [{ name = 'line', inward = ['ping'], outward = ['pong'] }]
channel = [{ name = 'c0', ends = ['env.line', 'B.g'], forth = ['ping'], back = ['pong'] }]

[[block]]
name = 'B'
gate = [{ name = 'g', inward = ['ping'], outward = ['pong'] }]
set = [{ name = 'E', gate = [{ name = 'p', inward = ['ping'], outward = ['pong'] }] }]
channel = [{ name = 'c1', ends = ['env.g', 'E.p'], forth = ['ping'], back = ['pong'] }]
";

pub const RELAY: &str = "version = 1
system = 'Relay'
signal = [{ name = 'put', sorts = ['Integer'] }, { name = 'num', sorts = ['Integer'] }, { name = 'out', sorts = ['Integer'] }]
gate = [{ name = 'left', inward = ['put'] }, { name = 'right', inward = ['put'] }, { name = 'sink', outward = ['out'] }]
channel = [
  { name = 'sa', ends = ['env.left', 'L.a'], forth = ['put'] },
  { name = 'sc', ends = ['env.right', 'L.c'], forth = ['put'] },
  { name = 'mid', ends = ['L.g', 'R.h'], forth = ['num'] },
  { name = 'so', ends = ['R.s', 'env.sink'], forth = ['out'] },
]

[[block]]
name = 'L'
gate = [{ name = 'a', inward = ['put'] }, { name = 'c', inward = ['put'] }, { name = 'g', outward = ['num'] }]
set = [
  { name = 'A', gate = [{ name = 'i', inward = ['put'] }, { name = 'o', outward = ['num'] }] },
  { name = 'C', gate = [{ name = 'i', inward = ['put'] }, { name = 'o', outward = ['num'] }] },
]
channel = [
  { name = 'la', ends = ['env.a', 'A.i'], forth = ['put'] },
  { name = 'lc', ends = ['env.c', 'C.i'], forth = ['put'] },
  { name = 'ag', ends = ['A.o', 'env.g'], forth = ['num'] },
  { name = 'cg', ends = ['C.o', 'env.g'], forth = ['num'] },
]

[[block]]
name = 'R'
gate = [{ name = 'h', inward = ['num'] }, { name = 's', outward = ['out'] }]
set = [{ name = 'B', gate = [{ name = 'i', inward = ['num'] }, { name = 'o', outward = ['out'] }] }]
channel = [
  { name = 'hb', ends = ['env.h', 'B.i'], forth = ['num'] },
  { name = 'bs', ends = ['B.o', 'env.s'], forth = ['out'] },
]
";

pub const SPAWN: &str = "version = 1
system = 'Spawn'
signal = [
  { name = 'make' },
  { name = 'ask', sorts = ['Integer'] },
  { name = 'kill', sorts = ['Pid'] },
  { name = 'hello' },
  { name = 'die' },
  { name = 'query', sorts = ['Integer'] },
  { name = 'reply', sorts = ['Integer'] },
  { name = 'born', sorts = ['Pid'] },
  { name = 'answer', sorts = ['Pid', 'Integer'] },
  { name = 'noise' },
]
gate = [{ name = 'cmd', inward = ['make', 'ask', 'kill', 'noise'], outward = ['born', 'answer'] }]
channel = [{ name = 'c0', ends = ['env.cmd', 'K.g'], forth = ['make', 'ask', 'kill', 'noise'], back = ['born', 'answer'] }]

[[block]]
name = 'K'
gate = [{ name = 'g', inward = ['make', 'ask', 'kill', 'noise'], outward = ['born', 'answer'] }]
set = [
  { name = 'Boss', initial = 1, maximum = 1, gate = [
    { name = 'up', inward = ['make', 'kill', 'noise'] },
    { name = 'down', inward = ['query'], outward = ['hello', 'die', 'reply'] },
  ] },
  { name = 'Kid', initial = 2, maximum = 2, gate = [
    { name = 'boss', inward = ['hello', 'die', 'reply'], outward = ['query'] },
    { name = 'out', inward = ['ask'], outward = ['born', 'answer'] },
  ] },
]
channel = [
  { name = 'c1', ends = ['env.g', 'Boss.up'], forth = ['make', 'kill', 'noise'] },
  { name = 'c2', ends = ['env.g', 'Kid.out'], forth = ['ask'], back = ['born', 'answer'] },
  { name = 'c3', ends = ['Boss.down', 'Kid.boss'], forth = ['hello', 'die', 'reply'], back = ['query'], nodelay = true },
]
";

pub const RING: &str = "version = 1
system = 'Ring'
budget = 100
signal = [{ name = 'tok', sorts = ['Integer'] }]
channel = [{ name = 'r', ends = ['P.g', 'Q.g'], forth = ['tok'], back = ['tok'] }]

[[block]]
name = 'P'
gate = [{ name = 'g', inward = ['tok'], outward = ['tok'] }]
set = [{ name = 'X', gate = [{ name = 'g', inward = ['tok'], outward = ['tok'] }] }]
channel = [{ name = 'p', ends = ['env.g', 'X.g'], forth = ['tok'], back = ['tok'] }]

[[block]]
name = 'Q'
gate = [{ name = 'g', inward = ['tok'], outward = ['tok'] }]
set = [{ name = 'Y', gate = [{ name = 'g', inward = ['tok'], outward = ['tok'] }] }]
channel = [{ name = 'q', ends = ['env.g', 'Y.g'], forth = ['tok'], back = ['tok'] }]
";

pub const HOLD: &str = "version = 1
system = 'Hold'
signal = [{ name = 'data', sorts = ['Integer'] }, { name = 'go' }, { name = 'halt' }, { name = 'out', sorts = ['Integer'] }]
gate = [{ name = 'line', inward = ['data', 'go', 'halt'], outward = ['out'] }]
channel = [{ name = 'c0', ends = ['env.line', 'B.g'], forth = ['data', 'go', 'halt'], back = ['out'] }]

[[block]]
name = 'B'
gate = [{ name = 'g', inward = ['data', 'go', 'halt'], outward = ['out'] }]
set = [{ name = 'H', gate = [{ name = 'p', inward = ['data', 'go', 'halt'], outward = ['out'] }] }]
channel = [{ name = 'c1', ends = ['env.g', 'H.p'], forth = ['data', 'go', 'halt'], back = ['out'] }]
";
