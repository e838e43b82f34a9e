//! What the program says of itself.
use program_help::{CommandHelp, Help};

const WORDS: &str = "
W chooses the landmarks: none, at:2,5 (these nodes), or draw:7 (drawn by the seed 7).
";

const COMMANDS: &[CommandHelp] = &[
    CommandHelp {
        name: "format",
        entry: "  tznode format DEVICE N [--new]              make the file DEVICE, a network of N nodes (1 to 16384) and no edges
",
        more: "
A file of that name is made anew, and what it held is lost. With --new it is refused.
",
    },
    CommandHelp {
        name: "edit",
        entry: "  tznode edit DEVICE OP.. [--session S] [--ticket T]
                                              make 1 to 16 operations, all or none: add:A:B:W  set:A:B:W  cut:A:B
",
        more: "
S is 0 to 63, else 0. T is 1 to 9223372036854775807, else the next one of the session.
",
    },
    CommandHelp {
        name: "show",
        entry: "  tznode show DEVICE                          print the number of changes and the edges
",
        more: "",
    },
    CommandHelp {
        name: "resume",
        entry: "  tznode resume DEVICE S                      print the last ticket of session S (0 to 63)
",
        more: "",
    },
    CommandHelp {
        name: "route",
        entry: "  tznode route DEVICE FROM TO [FROM TO].. --words W
                                              print the way of a packet, a line for each pair of nodes
",
        more: WORDS,
    },
    CommandHelp {
        name: "check",
        entry: "  tznode check DEVICE --words W               build the routing tables and check them
",
        more: WORDS,
    },
    CommandHelp {
        name: "tables",
        entry: "  tznode tables DEVICE FOLDER --words W [--node N]..
                                              put the tables of these nodes, or of all, into the folder: N.table each
",
        more: WORDS,
    },
    CommandHelp {
        name: "serve",
        entry: "  tznode serve DEVICE --words W [--editors E] [--forwarders F] [--queue Q]
                                              run a script of edits and routes from standard input, in threads
  tznode serve DEVICE --words W --live [--editors E] [--forwarders F] [--queue Q] [--rounds R]
                                              answer lines of standard input as they come: edits, routes, packets
",
        more: "
E, F and Q are 1 to 64, else 2, 2 and 64. R is 1 to 65535, else 16.
W chooses the landmarks: none, at:2,5 (these nodes), or draw:7 (drawn by the seed 7).
",
    },
    CommandHelp {
        name: "copy",
        entry: "  tznode copy OLD NEW                         write what the device OLD holds, its tickets too, to the new file NEW
",
        more: "",
    },
    CommandHelp {
        name: "migrate",
        entry: "  tznode migrate OLD NEW                      bring a device of layout 1 to the new file NEW
",
        more: "",
    },
    CommandHelp {
        name: "help",
        entry: "  tznode help [COMMAND]                       print this, or what there is to say of a command
",
        more: "",
    },
    CommandHelp {
        name: "version",
        entry: "  tznode version                              print the version
",
        more: "",
    },
];

/// What the program `tznode` says of itself.
pub const HELP: Help = Help {
    program: "tznode",
    front: "tznode: a network with small routing tables, kept in one crash-safe file

",
    commands: COMMANDS,
    back: "
W chooses the landmarks: none, at:2,5 (these nodes), or draw:7 (drawn by the seed 7).
Exit status: 0 done; 1 the answer is no, or a fault on standard error; 2 not understood.
",
};
