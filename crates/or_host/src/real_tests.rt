// Real files at their edges, and files whose calls take a part or fail in mid-stream.
ghost use Rattle.std.specs.Prelude.{◌≡◌, [], None};
ghost use Rattle.or_host.specs.Calls.{IsName};

use crate::{Failed, FileHost, Host, LoadFail, NamedFiles};
use std::alloc::Global;
use std::fs::Files;
use std::io::{Error, ErrorKind, Read, sink};
use std::test::Fail;
use std::{fs, io};

// What a load up to this limit answers, and how many bytes it took, all of them this one.
fn loads<H: Host>(
    alloc: Global,
    host: &mut H,
    name: &str,
    max: usize,
    byte: u8,
) -> (Result<(), LoadFail>, Option<usize>)
    requires { IsName name.now }
{
    let mut into = Vec::new(alloc);
    let answer = host.load(name, max, &mut into);
    let alike = into.iter().all(|taken| *taken == byte);
    (answer, alike.then_some(into.len()))
}

fn appends<H: Host>(host: &mut H, name: &str, bytes: &[u8]) -> Result<(), Failed>
    requires { IsName name.now }
{
    host.append(name, bytes)
}

fn creates<H: Host>(host: &mut H, name: &str) -> Result<(), Failed>
    requires { IsName name.now }
{
    host.create(name)
}

// A directory opens, and cannot be read.
#[test]
fn directory_is_no_file(rt: HostRuntime) -> Result<(), Fail> {
    let mut host = FileHost::new(&rt);
    let (answer, taken) = loads(rt.alloc(), &mut host, ".", 9, 0);
    assert!(rt; answer == Err(LoadFail::Failed), "loading a directory");
    assert!(rt; taken == Some(0), "bytes of a directory");
    Ok(())
}

#[test]
fn full_disk_fails_a_write(rt: HostRuntime) -> Result<(), Fail> {
    let mut host = FileHost::new(&rt);
    assert!(rt;
        creates(&mut host, "/dev/full") == Ok(()),
        "creating on a full disk"
    );
    assert!(rt;
        appends(&mut host, "/dev/full", b"x") == Err(Failed),
        "appending on a full disk"
    );
    Ok(())
}

const LONG: usize = 1_048_579;

// A file of more than a mebibyte loads whole, and is too long for one byte less.
#[test]
fn long_file_loads_whole(rt: HostRuntime) -> Result<(), Fail> {
    let alloc = rt.alloc();
    let name = "or_host_long_file.tmp";
    let bytes = vec![in alloc; 7u8; LONG]?;
    let mut host = FileHost::new(&rt);
    assert!(rt; creates(&mut host, name) == Ok(()), "creating");
    assert!(rt; appends(&mut host, name, &bytes) == Ok(()), "appending");
    let whole = loads(alloc, &mut host, name, LONG, 7);
    let short = loads(alloc, &mut host, name, LONG - 1, 7);
    fs::remove_file(&rt, name)?;
    assert!(rt; whole == (Ok(()), Some(LONG)), "at the limit");
    assert!(rt;
        short == (Err(LoadFail::TooLong), Some(LONG)),
        "over the limit"
    );
    Ok(())
}

// Files of one name: a read or a write takes a thousand bytes at most, and fails once these are spent.
#[derive(Drop)]
struct Faulty {
    read: usize,
    written: usize,
}

// What is left to read before a read fails.
#[derive(Drop)]
struct Breaks {
    left: usize,
}

impl Read for Breaks {
    fn read(&mut self, buf: &mut [u8]) -> io::Result<usize> {
        if self.left == 0 {
            return Err(Error::from(ErrorKind::Other));
        }
        let count = self.left.min(1000).min(buf.len());
        buf[..count].fill(7);
        self.left -= count;
        Ok(count)
    }
}

impl NamedFiles for Faulty {
    type Reader = Breaks;

    ghost holds = { λ _ _. None };

    ghost pairs = { λ _ _ _. None };

    fn same(&self, _one: &str, _other: &str) -> bool {
        false
    }

    fn open(&mut self, _name: &str) -> Result<Breaks, Failed> {
        Ok(Breaks { left: self.read })
    }

    fn create(&mut self, _name: &str) -> Result<(), Failed> {
        Ok(())
    }

    fn append(&mut self, _name: &str, bytes: &[u8]) -> Result<usize, Failed> {
        if self.written == 0 {
            return Err(Failed);
        }
        let count = self.written.min(1000).min(bytes.len());
        self.written -= count;
        Ok(count)
    }
}

// A read that fails behind nine kilobytes is no end of a file.
#[test]
fn read_fails_in_mid_stream(rt: HostRuntime) -> Result<(), Fail> {
    let files = Faulty {
        read: 9000,
        written: 0,
    };
    let mut host = FileHost::over(files, sink(), sink());
    let (answer, taken) = loads(rt.alloc(), &mut host, "a", LONG, 7);
    assert!(rt; answer == Err(LoadFail::Failed), "a read that fails");
    assert!(rt; taken == Some(9000), "bytes before a read that fails");
    Ok(())
}

// Bytes are added in parts, up to the part that fails.
#[test]
fn parts_are_added_until_one_fails(rt: HostRuntime) -> Result<(), Fail> {
    let bytes = [7u8; 2500];
    let files = Faulty {
        read: 0,
        written: 4000,
    };
    let mut host = FileHost::over(files, sink(), sink());
    assert!(rt; appends(&mut host, "a", &bytes) == Ok(()), "parts that fit");
    assert!(rt;
        appends(&mut host, "a", &bytes) == Err(Failed),
        "a part that fails"
    );
    Ok(())
}

// Names lead to one file by any way, but not to a special one.
#[test]
fn names_lead_to_one_file(rt: HostRuntime) -> Result<(), Fail> {
    let name = "or_host_same.tmp";
    let mut host = FileHost::new(&rt);
    let dotted = "./or_host_same.tmp";
    let link = "or_host_link.tmp";
    assert!(rt; host.same(name, dotted), "not there, by another way");
    assert!(rt; !host.same(name, link), "not there, of another name");
    rt.symlink(name, link)?;
    let dangling = host.same(name, link);
    let created = creates(&mut host, name);
    let linked = host.same(link, dotted);
    let apart = host.same(name, "/dev/null");
    fs::remove_file(&rt, link)?;
    fs::remove_file(&rt, name)?;
    assert!(rt; created == Ok(()), "creating");
    assert!(rt; dangling, "a link to a file that is not there");
    assert!(rt; linked, "a link");
    assert!(rt; !apart, "a file and a special one");
    assert!(rt;
        !host.same("/dev/null", "/dev/null"),
        "a special file twice"
    );
    Ok(())
}
