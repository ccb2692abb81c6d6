//! What the program says of itself.
use or_cli::Help;

/// What `or1k --version` prints.
pub(crate) const VERSION: &str = "or1k 0.1.0\n";

/// What `or1k --help` prints before its commands.
pub(crate) const HEAD: &str = "\
or1k: runs OpenRISC programs on one to eight cores, records every interleaving, replays it exactly, steps back

";

/// What it prints behind them.
pub(crate) const TAIL: &str = "\
or1k COMMAND --help    prints the options of a command, and an example
or1k --help            prints this text
or1k --version         prints the version

Exit status: 0 success, 2 invalid command line, 3 faulty image, 4 refused recording, 5 a file could not be read, 6 an
output could not be written, 7 out of memory, 8 a file is too long, 9 faulty source, 10 faulty script, 12 faulty symbols,
13 an argument is no text, 14 no failure found (hunt), 15 a core failed (run --status), 16 an output and another
name lead to one file. With any other status than 0 and 15 two lines on standard error say why.
";

/// What is told of each command.
pub(crate) const COMMANDS: [Help<'static>; 12] = [
    Help {
        name: "run",
        words: "IMAGE INPUT SCHED REPORT [--cores N] [--budget N] [--ram N] [--pic latched] [--stay N] [--status]",
        text: "    Runs the ELF32 file IMAGE, with the bytes of the file INPUT as console input (- for none), until every core has
    stopped. Writes the recording of the order of turns to SCHED, the final cores to REPORT, and the console to standard
    output. SCHED or REPORT is - where it is not wanted. A core stops by l.nop 1, with r3 as its exit value, or when it has
    used up its budget.
    --cores N        cores of the board, 1 to 8, default 1
    --budget N       steps that each core may make, 1 to 67108864, default 1000000
    --ram N          RAM in MiB, 1 to 256, default 32
    --pic latched    interrupt controllers that latch their lines
    --stay N         most turns that a core makes before it releases the bus, 1 to 4096, default 256; 1 gives the
                     finest interleaving
    --status         exits with 15 if a core used up its budget, or if its exit value is not 0
    Options follow the file names, in this order.
",
        example: "or1k run program.elf - program.sched program.rep --cores 2 --ram 1 --status",
    },
    Help {
        name: "hunt",
        words: "IMAGE INPUT SCHED REPORT [--cores N] [--budget N] [--ram N] [--pic latched] [--seed N] [--tries N]",
        text: "    Looks for an order of turns in which a core fails: it uses up its budget, or its exit value is not 0. Draws a schedule
    of each seed, runs IMAGE by it from the start, and takes the first seed that fails. Writes the recording of its run to
    SCHED, the final cores to REPORT, and to standard output the seed and the cores that fail. SCHED or REPORT is - where it
    is not wanted. Exits with 14 if none fails.
    --cores N        cores of the board, 1 to 8, default 2
    --budget N, --ram N, --pic latched    as for run
    --seed N         the first seed, 0 to 4293967295, default 1
    --tries N        how many seeds are tried, 1 to 1000000, default 1000
    Options follow the file names, in this order.
",
        example: "or1k hunt program.elf - program.sched program.rep --ram 1 && or1k replay program.elf - program.sched again.rep",
    },
    Help {
        name: "replay",
        words: "IMAGE INPUT SCHED REPORT",
        text: "    Follows the recording SCHED of a run of IMAGE with INPUT on one thread, and gives the same report and console.
    REPORT is - for no report.
",
        example: "or1k replay program.elf - program.sched again.rep && cmp program.rep again.rep",
    },
    Help {
        name: "debug",
        words: "IMAGE INPUT SCHED SCRIPT",
        text: "    Checks a recorded run as replay does, and follows it as the lines of SCRIPT say: go, turn N, break C ADDR, watch ADDR,
    stores ADDR, regs C, mem ADDR N, lines C, last N. Writes what they show to standard output.
",
        example: "or1k debug program.elf - program.sched script",
    },
    Help {
        name: "back",
        words: "IMAGE INPUT SCHED SCRIPT [--every N]",
        text: "    Follows a recorded run forward and back. SCRIPT has the lines of debug, back N (N turns back), to N (to turn N) and
    rgo (back to the last hit).
    --every N        turns between two checkpoints, 1 to 536870912, default 1048576
",
        example: "or1k back program.elf - program.sched script",
    },
    Help {
        name: "race",
        words: "IMAGE INPUT SCHED [--locks] [--where]",
        text: "    Follows a recorded run, and writes to standard output the words of RAM with a data race, each with the turns and cores
    of two racing accesses. An l.swa that stored is ordered before later l.lwa of its word; a plain store orders nothing.
    --locks          a word that l.lwa or l.swa accesses is a lock: a plain store frees it, and it does not race
    --where          each line tells the word's object, and the pcs of both accesses with their functions, by the image's symbols
",
        example: "or1k race program.elf - program.sched --locks --where",
    },
    Help {
        name: "prof",
        words: "IMAGE INPUT SCHED [--hot]",
        text: "    Follows a recorded run, and writes to standard output how many steps each core made in each function of the image's
    symbol table.
    --hot            behind each core's steps outside of all functions, the up to eight pcs that have most of them
",
        example: "or1k prof program.elf - program.sched --hot",
    },
    Help {
        name: "trace",
        words: "IMAGE INPUT SCHED [--core N] [--from T] [--to T]",
        text: "    Follows a recorded run, and writes to standard output each step of its turns: the pc, the word, the instruction and the
    exception that it enters, with the names of functions where they begin.
    --core N         only the turns of core N, 0 to 7
    --from T         the first turn, counted from 1: 1 to 4294967295, default 1
    --to T           the last turn, 1 to 4294967295, default the last of the run
    Options follow the file names, in this order.
",
        example: "or1k trace program.elf - program.sched --from 1000 --to 1100",
    },
    Help {
        name: "asm",
        words: "SRC IMAGE [--symbols]",
        text: "    Assembles the source SRC and writes the ELF32 file of its program to IMAGE.
    --symbols adds a symbol table with a symbol for each label, so that other commands show names.
",
        example: "or1k asm program.s program.elf",
    },
    Help {
        name: "dis",
        words: "IMAGE",
        text: "    Writes the address, the word and the instruction of each word of IMAGE's segments to standard output.
",
        example: "or1k dis program.elf",
    },
    Help {
        name: "gen",
        words: "SEED CORES ROUNDS SRC",
        text: "    Writes the source of a workload to SRC: CORES cores, 1 to 8, increment one counter ROUNDS times each, 1 to 100000,
    with delays that depend on SEED, 0 to 4294967295. Run its image with --cores CORES --budget 10000000 --ram 1.
",
        example: "or1k gen 1 4 1000 work.s",
    },
    Help {
        name: "bench",
        words: "SEED CORES ROUNDS SCHED [--stay N]",
        text: "    Generates that workload, assembles it and runs it. Writes the recording to SCHED, and to standard output the line
    bench SEED CORES ROUNDS, then run and the console.
    --stay N         as for run
",
        example: "or1k bench 1 4 1000 bench.sched",
    },
];
