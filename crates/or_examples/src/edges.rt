// Real files at their edges.
use crate::Line;
use Line::{Command, Full, Refused, Same};
use std::fs::Files;
use std::io::{BufWriter, Write};
use std::{fs, io};

// `/dev/full` opens, and no byte can be written to it. A read of `/proc/self/pagemap` fails if its length is no multiple of
// eight, as the last one up to the limit of an input is: one byte, behind a mebibyte that was read.
pub(crate) const EDGES: [Line; 31] = [
    Refused("run . - s r --ram 1"),
    Refused("run hello.elf . s r --ram 1"),
    Refused("run hello.elf /proc/self/pagemap s r --ram 1"),
    Refused("run hello.elf - /dev/full r --ram 1"),
    Refused("run hello.elf - s /dev/full --ram 1"),
    Same("s", "hello.sched"),
    Full("run hello.elf - s r --ram 1"),
    Same("r", "hello.rep"),
    Full("dis hello.elf"),
    Refused("asm hello/hello.s /dev/full"),
    Refused("gen 1 4 1000 hello"),
    // names of one file
    Refused("run hello.elf - ./hello.elf r --ram 1"),
    Refused("run hello.elf - s hello/../hello.elf --ram 1"),
    Refused("run hello.elf - linked.elf r --ram 1"),
    Refused("run hello.elf - s hard.elf --ram 1"),
    Refused("run hello.elf - new.sched .//new.sched --ram 1"),
    Refused("run hello.elf - new.sched linked.sched --ram 1"),
    Refused("asm hello/hello.s ./hello/hello.s"),
    Refused("replay hello.elf - hello.sched ./hello.sched"),
    // a device keeps nothing that could be overwritten
    Command("run hello.elf - /dev/null /dev/./null --ram 1"),
    // 270004 words, which is more than a mebibyte, and as many turns of each core
    Command("asm long.s long.elf"),
    Command("run long.elf - s r --ram 2"),
    Command("replay long.elf - s again.rep"),
    Same("again.rep", "r"),
    // on this seed each core moves by one turn
    Command("hunt long.elf - s r --ram 2 --seed 348 --tries 1"),
    Command("replay long.elf - s again.rep"),
    Same("again.rep", "r"),
    Refused("run long.elf - s r --ram 1"),
    // 800003 steps among 200001 functions: a search of all of them at each step would take longer than a program may
    Command("asm labels.s labels.elf --symbols"),
    Command("run labels.elf - s r --ram 1"),
    Command("prof labels.elf - s"),
];

const WORDS: usize = 270_000;

const LABELS: u32 = 200_000;

/// Writes `long.s`: 270000 instructions that do nothing, and a byte for the console.
pub(crate) fn write_long_source(rt: &HostRuntime) -> io::Result<()> {
    let mut file = BufWriter::new(rt.alloc(), fs::create(rt, "long.s")?)?;
    for _ in 0..WORDS {
        file.write_all(b"l.nop 0\n")?;
    }
    file.write_all(b"l.movhi r3,0x9000\nl.addi r4,r0,76\nl.sb 0(r3),r4\nl.nop 1\n")?;
    file.flush()
}

/// Writes `labels.s`: a loop of four instructions that is passed 200000 times, and behind it 200000 labels.
pub(crate) fn write_labels(rt: &HostRuntime) -> io::Result<()> {
    let mut file = BufWriter::new(rt.alloc(), fs::create(rt, "labels.s")?)?;
    file.write_all(b"l.movhi r3,3\nl.ori r3,r3,3392\nloop:\n")?;
    file.write_all(b"l.addi r3,r3,-1\nl.sfne r3,r0\nl.bf loop\nl.nop 0\nl.nop 1\n")?;
    for label in 0..LABELS {
        write!(file, "f{label}:\nl.nop 0\n")?;
    }
    file.flush()
}

/// Makes a symbolic and a hard link to `hello.elf`, and a symbolic one to a file that is not there.
pub(crate) fn make_links(rt: &HostRuntime) -> io::Result<()> {
    rt.symlink("hello.elf", "linked.elf")?;
    rt.hard_link("hello.elf", "hard.elf")?;
    rt.symlink("new.sched", "linked.sched")
}
