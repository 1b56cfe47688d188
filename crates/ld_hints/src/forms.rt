// The forms of the lines of a schedule.

/// How the line of an event is spelt.
#[derive(Clone, Copy)]
pub struct Form {
    /// The event's word, which begins the line.
    pub word: &'static str,
    /// The fields behind it, each behind one blank.
    pub fields: &'static str,
    /// What each field may be.
    pub bounds: &'static str,
}

/// The forms of all events, by their words.
pub const FORMS: [Form; 24] = [
    Form {
        word: "activate",
        fields: "S L",
        bounds: "S is a name of 1 to 16 of a-z 0-9, L a log, 1 to 65535",
    },
    Form {
        word: "append",
        fields: "S HEX",
        bounds: "S is a sequencer's name, HEX an even number of digits 0-9 a-f, or - for the empty payload",
    },
    Form {
        word: "batch",
        fields: "S HEX,HEX,..",
        bounds: "S is a sequencer's name, each of 1 to 1024 HEX an even number of digits 0-9 a-f, or - for an empty message",
    },
    Form {
        word: "calm",
        fields: "",
        bounds: "the word alone",
    },
    Form {
        word: "deliver",
        fields: "I",
        bounds: "I is a message's number, 0 to 999999999999",
    },
    Form {
        word: "down",
        fields: "N",
        bounds: "N is a node, 1 to 16",
    },
    Form {
        word: "drop",
        fields: "S",
        bounds: "S is a sequencer's name",
    },
    Form {
        word: "fail",
        fields: "N K",
        bounds: "N is a node, 1 to 16, K a count of writing calls, 1 to 1000000",
    },
    Form {
        word: "flow",
        fields: "K",
        bounds: "K is a count of messages, 1 to 1000000",
    },
    Form {
        word: "format",
        fields: "N",
        bounds: "N is a node, 1 to 16",
    },
    Form {
        word: "lose",
        fields: "I",
        bounds: "I is a message's number, 0 to 999999999999",
    },
    Form {
        word: "open",
        fields: "R L FROM UNTIL",
        bounds: "R is a name of 1 to 16 of a-z 0-9, L a log, 1 to 65535, FROM and UNTIL are numbers eXnY",
    },
    Form {
        word: "openmsgs",
        fields: "R L FROM UNTIL",
        bounds: "R is a name of 1 to 16 of a-z 0-9, L a log, 1 to 65535, FROM and UNTIL are numbers eXnY",
    },
    Form {
        word: "openone",
        fields: "R L FROM UNTIL",
        bounds: "R is a name of 1 to 16 of a-z 0-9, L a log, 1 to 65535, FROM and UNTIL are numbers eXnY",
    },
    Form {
        word: "poll",
        fields: "R",
        bounds: "R is a reader's name",
    },
    Form {
        word: "regfail",
        fields: "K done|undone",
        bounds: "K is a count of changes of the register, 1 to 1000000",
    },
    Form {
        word: "replace",
        fields: "N M L",
        bounds: "N and M are nodes, 1 to 16, L a log, 1 to 65535",
    },
    Form {
        word: "retry",
        fields: "S",
        bounds: "S is a sequencer's name",
    },
    Form {
        word: "set",
        fields: "L R X NODES",
        bounds: "L is a log, 1 to 65535, R a replication factor, 1 to 16, X a count of extras, 0 to 3, NODES are nodes, 1 to 16, rising, with commas between them",
    },
    Form {
        word: "tear",
        fields: "N K PICTURE",
        bounds: "N is a node, 1 to 16, K a count of writing calls, 1 to 1000000, PICTURE old, new or two digits 0-9 a-f",
    },
    Form {
        word: "tick",
        fields: "N L",
        bounds: "N is a node, 1 to 16, L a log, 1 to 65535",
    },
    Form {
        word: "trim",
        fields: "S LSN",
        bounds: "S is a sequencer's name, LSN a number eXnY",
    },
    Form {
        word: "up",
        fields: "N",
        bounds: "N is a node, 1 to 16",
    },
    Form {
        word: "wipe",
        fields: "N",
        bounds: "N is a node, 1 to 16",
    },
];

/// Whether the line may have meant an event of this form: its bytes before the offset are the beginning of the form's
/// word, or they begin with that word and a blank.
pub fn is_meant(form: &Form, line: &[u8], place: usize) -> bool {
    let word = form.word.as_bytes();
    let fine = match line.get(..place) {
        Some(fine) => fine,
        None => line,
    };
    word.starts_with(fine) || (fine.starts_with(word) && fine.get(word.len()) == Some(&b' '))
}
