//! The loops by their names, and how often one runs.
use crate::losses::Spread;
use crate::turns::HubTurn;

/// A loop over a core under its lock.
#[derive(Clone, Copy)]
pub enum LockLoop {
    /// Turns on the current hub of a thread.
    Hub(HubTurn),
    /// Messages by several threads, each on a hub of its own.
    HubThreads,
    /// Messages by a client.
    Client,
    /// The same by a client in each of several threads.
    ClientThreads,
}

/// A loop. `TURNS` counts what each of its threads does; where it speaks of no threads there is one.
#[derive(Clone, Copy)]
pub enum Loop {
    Lock(LockLoop),
    /// Messages by an engine alone.
    Engine,
    /// A client is added to a core under its lock, and it and its clone are dropped.
    Clients,
    /// An envelope is taken out of a queue and offered again.
    Queue,
    /// An envelope is sent to a queueing transport, and passed on.
    Pass,
    /// An envelope is sent to a queueing transport that is full.
    TurnAway,
    /// An envelope of an event is made into bytes, which are counted.
    Envelopes,
    /// Envelopes of events with ten tags and twenty breadcrumbs wait, all at once.
    Waiting,
    /// Trace headers are read.
    ReadHeaders,
    /// The same bytes are scanned.
    ScanHeaders,
    /// Losses are recorded by several threads, while there are so many drains.
    Losses(Spread),
    /// Drains where no loss was recorded.
    QuietDrains,
    /// Drains with a loss before each.
    RaisedDrains,
}

/// Each loop, by the word that names it.
pub const LOOPS: [(&str, Loop); 23] = [
    ("scopes", Loop::Lock(LockLoop::Hub(HubTurn::Scope))),
    (
        "messages",
        Loop::Lock(LockLoop::Hub(HubTurn::TaggedMessage)),
    ),
    (
        "breadcrumbs",
        Loop::Lock(LockLoop::Hub(HubTurn::Breadcrumb)),
    ),
    ("logs", Loop::Lock(LockLoop::Hub(HubTurn::Log))),
    ("counters", Loop::Lock(LockLoop::Hub(HubTurn::Counter))),
    ("sessions", Loop::Lock(LockLoop::Hub(HubTurn::Session))),
    (
        "transactions",
        Loop::Lock(LockLoop::Hub(HubTurn::Transaction)),
    ),
    ("threads", Loop::Lock(LockLoop::HubThreads)),
    ("engine", Loop::Engine),
    ("clients", Loop::Clients),
    ("client", Loop::Lock(LockLoop::Client)),
    ("client_threads", Loop::Lock(LockLoop::ClientThreads)),
    ("queue", Loop::Queue),
    ("pass", Loop::Pass),
    ("turn_away", Loop::TurnAway),
    ("envelopes", Loop::Envelopes),
    ("waiting", Loop::Waiting),
    ("read_headers", Loop::ReadHeaders),
    ("scan_headers", Loop::ScanHeaders),
    ("losses", Loop::Losses(Spread::OneCategory)),
    ("spread", Loop::Losses(Spread::OwnCategories)),
    ("quiet", Loop::QuietDrains),
    ("raised", Loop::RaisedDrains),
];

/// How often a loop runs.
#[derive(Clone, Copy)]
pub struct Size {
    pub turns: u64,
    pub threads: u64,
    pub drains: u64,
    /// Whether loops on hubs write long texts.
    pub long: bool,
}

// The number at a place, or another one where no word is left; `None` if the word is no number.
fn number_at(words: &[String], place: usize, otherwise: u64) -> Option<u64> {
    match words.get(place) {
        None => Some(otherwise),
        Some(word) => word.parse::<u64>().ok(),
    }
}

// How often each loop runs where the arguments name none.
const FEW: Size = Size {
    turns: 200,
    threads: 2,
    drains: 10,
    long: false,
};

/// What the arguments ask for.
#[derive(Drop)]
pub struct Asked<'a> {
    /// The loop; all of them if there is none.
    name: Option<&'a str>,
    pub size: Size,
}

impl<'a> Asked<'a> {
    /// What the words ask for, of which the first is the program's name: all loops, for a few turns, or a loop, turns,
    /// threads (else one) and drains (else none), with long texts if the last word says so. `None` if they are others.
    pub fn read(words: &'a [String]) -> Option<Asked<'a>> {
        let Some(name) = words.get(1) else {
            return Some(Asked {
                name: None,
                size: FEW,
            });
        };
        let (words, long) = split_long(words);
        if !is_loop(name.as_str()) || words.len() < 3 || words.len() > 5 {
            return None;
        }
        let size = Size {
            turns: number_at(words, 2, 0)?,
            threads: number_at(words, 3, 1)?,
            drains: number_at(words, 4, 0)?,
            long,
        };
        if size.threads == 0 {
            return None;
        }
        Some(Asked {
            name: Some(name.as_str()),
            size,
        })
    }

    /// Whether the loop of this name is to run.
    pub fn includes(&self, name: &str) -> bool {
        match self.name {
            None => true,
            Some(asked) => asked == name,
        }
    }
}

// The words before a last word `long`, and whether it is there.
fn split_long(words: &[String]) -> (&[String], bool) {
    match words.split_last() {
        Some((last, before)) if last.as_str() == "long" => (before, true),
        _ => (words, false),
    }
}

fn is_loop(wanted: &str) -> bool {
    for (name, _) in &LOOPS {
        if *name == wanted {
            return true;
        }
    }
    false
}
