// The names of arguments, as a refusal tells them.

/// The names of the arguments.
const NAMES: [&str; 32] = [
    "at",
    "batches",
    "config",
    "copy",
    "epochs",
    "events",
    "follow",
    "format",
    "from",
    "id",
    "idle",
    "in-flight",
    "json",
    "limit",
    "listen",
    "log",
    "messages",
    "move",
    "of",
    "one-copy",
    "pause",
    "peers",
    "port",
    "quiet",
    "register",
    "rounds",
    "seed",
    "store",
    "text",
    "turns",
    "until",
    "upto",
];

/// An argument of a command. It is its name's place among the names and holds no reference, so that a proof has a type with
/// arguments in it once, and not at each step of each function.
#[derive(Clone, Copy)]
pub struct Argument {
    place: usize,
}

impl Argument {
    /// The argument of this name. It has to be one of the names: of another one `name` gives nothing.
    pub fn of(name: &str) -> Argument {
        let mut place = 0_usize;
        for other in &NAMES {
            if *other == name {
                break;
            }
            place = place.saturating_add(1);
        }
        Argument { place }
    }

    /// The name.
    pub fn name(self) -> &'static str {
        match NAMES.get(self.place) {
            Some(name) => name,
            None => "",
        }
    }
}
