// What the program says of itself.
use program_help::{CommandHelp, Help};

const LINES: &[CommandHelp] = &[
    CommandHelp {
        name: "address",
        entry: "  address            the router's address by its newest table
",
        more: "",
    },
    CommandHelp {
        name: "launch",
        entry: "  launch ADDRESS     the packet that it sends to an address of 84 digits
",
        more: "",
    },
    CommandHelp {
        name: "hop",
        entry: "  hop PACKET         over which port a packet of 86 digits goes, and what goes there
",
        more: "",
    },
    CommandHelp {
        name: "load",
        entry: "  load FILE          load the table in a file
",
        more: "
It replaces one of the same generation. Of five the oldest is dropped.
",
    },
    CommandHelp {
        name: "drop",
        entry: "  drop G             forget the table of generation G
",
        more: "
The only one stays. This is for networks that went back to a backup: older generations can be loaded then.
",
    },
    CommandHelp {
        name: "tables",
        entry: "  tables             the node and the generations of its tables, the oldest first
",
        more: "",
    },
];

/// What the program `tzrouter` says of itself.
pub(crate) const HELP: Help = Help {
    program: "tzrouter",
    front: "Forwards packets at one node of a network, by the node's own tables

  tzrouter TABLE..   read tables of one node from files: those of the newest four generations stay
  tzrouter help      print this
  tzrouter version   print the version

Each line of standard input is answered with one line:

",
    commands: LINES,
    back: "
Exit status: 0 at the end of the input; 1 a file, a stream or memory failed; 2 not understood.
",
};
