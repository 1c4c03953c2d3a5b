//! Loads and writes over the objects in memory, and one test of each adapter over the real outside.

ghost use Rattle.std.specs.Prelude.{◌≡◌, ◌<◌, ◌+◌, None, Some, [], ◌∷◌};

use crate::same::same;
use std::alloc::{AllocError, Global};
use std::marker::Brand;
use std::process::Abort;
use std::sync::ledger::{Blank, Ledger};
use std::test::Fail;
use std::{env, fs};
use vpf_source::*;

/// A tree with a file of five bytes and an empty one.
fn small_tree(alloc: Global, piece: u32, fail: Vec<u64>) -> Result<MemTree, AllocError> {
    let mut tree = MemTree::new(alloc, piece.max(1), fail);
    tree.put("five", b"fghij")?;
    tree.put("empty", b"")?;
    tree.put("five", b"abcde")?;
    Ok(tree)
}

/// What a load of a file is to come to.
type Loaded = Result<Option<&'static [u8]>, LoadError>;

const FIVE: Loaded = Ok(Some(b"abcde"));

const EMPTY: Loaded = Ok(Some(b""));

/// Ends the trial unless the load of a file comes to this.
fn check_load(
    rt: &impl Abort,
    alloc: Global,
    tree: &mut MemTree,
    name: &str,
    budget: u64,
    want: Loaded,
) {
    let holds = match load(alloc, tree, name, budget) {
        Ok(Some(bytes)) => want == Ok(Some(bytes.as_slice())),
        Ok(None) => want == Ok(None),
        Err(error) => want == Err(error),
    };
    same(rt, holds, true, (name, budget));
}

#[test]
fn loads_whole_files(rt: HostRuntime) -> Result<(), Fail> {
    let alloc = rt.alloc();
    let cases = [
        ("five", 5, FIVE),
        ("five", u64::MAX, FIVE),
        ("five", 4, Err(LoadError::TooLarge { size: 5 })),
        ("five", 0, Err(LoadError::TooLarge { size: 5 })),
        ("empty", 0, EMPTY),
        ("fiv", 5, Ok(None)),
        ("", 0, Ok(None)),
    ];
    for piece in [1, 2, 4096] {
        let mut tree = small_tree(alloc, piece, Vec::new(alloc))?;
        for (name, budget, want) in cases {
            check_load(&rt, alloc, &mut tree, name, budget, want);
        }
    }
    Ok(())
}

/// Files, how many calls of the tree their loads make, and what they come to.
const CALLS: [(u32, &str, u64, u64, Loaded); 6] = [
    (1, "five", 5, 6, FIVE),
    (2, "five", 5, 4, FIVE),
    (4096, "five", 5, 2, FIVE),
    (2, "five", 4, 1, Err(LoadError::TooLarge { size: 5 })),
    (2, "empty", 5, 1, EMPTY),
    (2, "absent", 5, 1, Ok(None)),
];

/// Each of the calls of a load fails in turn; the load that makes no further call is right.
#[test]
fn fails_where_a_call_fails(rt: HostRuntime) -> Result<(), Fail> {
    let alloc = rt.alloc();
    for (piece, name, budget, calls, want) in CALLS {
        for failing in 1..=calls {
            let mut tree = small_tree(alloc, piece, vec![in alloc; failing]?)?;
            check_load(&rt, alloc, &mut tree, name, budget, Err(LoadError::Failed));
            check_load(&rt, alloc, &mut tree, name, budget, want);
        }
        let mut tree = small_tree(alloc, piece, vec![in alloc; 0, calls + 1]?)?;
        check_load(&rt, alloc, &mut tree, name, budget, want);
        same(&rt, tree.size(name), Err(Failed), (name, calls));
    }
    Ok(())
}

/// A tree that does not tell its files, and gives one byte of each where it told a size of five.
#[derive(Drop)]
struct ShortTree;

impl Tree for ShortTree {
    ghost files = { λ _. None };

    ghost reads = { λ _. Some (λ _. Some (97 ∷ [])) };

    ghost faults = { λ _. 0 };

    fn size(&mut self, _name: &str) -> Result<Option<u64>, Failed> {
        Ok(Some(5))
    }

    fn read_at(&mut self, _name: &str, at: u64, buf: &mut [u8]) -> Result<usize, Failed> {
        match buf.first_mut() {
            Some(first) if at == 0 => {
                *first = b'a';
                Ok(1)
            }
            _ => Ok(0),
        }
    }

    fn make(&mut self, _name: &str, _bytes: &[u8]) -> Result<(), DeviceError> {
        Ok(())
    }

    ghost of_bytes = { λ _. tt };
}

#[test]
fn ends_where_no_byte_comes(rt: HostRuntime) -> Result<(), Fail> {
    let loaded = load(rt.alloc(), &mut ShortTree, "short", 5)?.ok_or("absent")?;
    same(&rt, loaded.as_slice(), b"a", "short");
    Ok(())
}

#[test]
fn reads_pieces(rt: HostRuntime) -> Result<(), Fail> {
    let alloc = rt.alloc();
    let mut tree = small_tree(alloc, 3, vec![in alloc; 2]?)?;
    for (name, want) in [
        ("five", Ok(Some(5))),
        ("five", Err(Failed)),
        ("absent", Ok(None)),
    ] {
        same(&rt, tree.size(name), want, name);
    }
    let cases: [(&str, u64, usize, &[u8]); 8] = [
        ("five", 0, 8, b"abc"),
        ("five", 1, 2, b"bc"),
        ("five", 3, 8, b"de"),
        ("five", 0, 0, b""),
        ("five", 5, 8, b""),
        ("five", u64::MAX, 8, b""),
        ("empty", 0, 8, b""),
        ("absent", 0, 8, b""),
    ];
    for (name, at, room, want) in cases {
        let mut buf = [b'-'; 8];
        assert!(rt; room <= 8);
        let count = tree.read_at(name, at, &mut buf[..room])?;
        assert!(rt; count <= 8);
        same(&rt, &buf[..count], want, (name, at));
        let kept = buf[count..].iter().all(|byte| *byte == b'-');
        same(&rt, kept, true, (name, at));
    }
    Ok(())
}

#[test]
fn puts_all_bytes(rt: HostRuntime) -> Result<(), Fail> {
    let alloc = rt.alloc();
    let cases: [(u32, u64, Result<(), DeviceError>, &[u8]); 7] = [
        (1, 0, Ok(()), b"abcde"),
        (2, 0, Ok(()), b"abcde"),
        (4096, 0, Ok(()), b"abcde"),
        (2, 1, Err(DeviceError::Failed), b""),
        (2, 2, Err(DeviceError::Failed), b"ab"),
        (2, 3, Err(DeviceError::Failed), b"abcd"),
        (2, 4, Ok(()), b"abcde"),
    ];
    for (piece, failing, want, written) in cases {
        let mut sink = MemSink::new(alloc, piece.max(1), vec![in alloc; failing]?);
        same(&rt, put_all(&mut sink, b"abcde"), want, (piece, failing));
        same(&rt, sink.bytes(), written, (piece, failing));
    }
    Ok(())
}

#[test]
fn writes_pieces(rt: HostRuntime) -> Result<(), Fail> {
    let alloc = rt.alloc();
    let mut sink = MemSink::new(alloc, 3, vec![in alloc; 3]?);
    let writes: [(&[u8], Result<usize, DeviceError>); 4] = [
        (b"abcde", Ok(3)),
        (b"", Ok(0)),
        (b"d", Err(DeviceError::Failed)),
        (b"de", Ok(2)),
    ];
    for (bytes, want) in writes {
        same(&rt, sink.write(bytes), want, bytes);
    }
    same(&rt, sink.bytes(), b"abcde", "in all");
    Ok(())
}

#[test]
fn names_and_bytes_are_lent(rt: HostRuntime) -> Result<(), Fail> {
    let alloc = rt.alloc();
    let file = File {
        name: Name::new(String::from_str(alloc, "lib/cov/edg")?),
        bytes: Bytes::new(vec![in alloc; 1, 2]?),
    };
    same(&rt, file.name.as_str(), "lib/cov/edg", "name");
    same(&rt, file.bytes.as_slice(), [1, 2].as_slice(), "bytes");
    Ok(())
}

/// Each call of making three files fails in turn: those before it are whole, it has half, and those behind it are absent.
#[test]
fn makes_files_up_to_a_fault(rt: HostRuntime) -> Result<(), Fail> {
    let alloc = rt.alloc();
    let files = [
        small_file(alloc, "a", b"abcde")?,
        small_file(alloc, "lib/b", b"")?,
        small_file(alloc, "a", b"fghij")?,
    ];
    let cases: [(u64, Option<&[u8]>, Option<&[u8]>); 4] = [
        (1, Some(b"ab"), None),
        (2, Some(b"abcde"), Some(b"")),
        (3, Some(b"fg"), Some(b"")),
        (4, Some(b"fghij"), Some(b"")),
    ];
    for (failing, first, second) in cases {
        let mut tree = MemTree::new(alloc, 4096, vec![in alloc; failing]?);
        let made = make_all(&mut tree, &files);
        let want = match failing {
            4 => Ok(()),
            _ => Err(DeviceError::Failed),
        };
        same(&rt, made, want, failing);
        for (name, bytes) in [("a", first), ("lib/b", second), ("lib", None)] {
            same(&rt, tree.file(name), bytes, (name, failing));
        }
    }
    Ok(())
}

fn small_file(alloc: Global, name: &str, bytes: &[u8]) -> Result<File, AllocError> {
    Ok(File {
        name: Name::new(String::from_str(alloc, name)?),
        bytes: Bytes::new(Vec::from_slice(alloc, bytes)?),
    })
}

/// Real folders: a file is made with its folders, replaced by a shorter one, and its neighbour stays whole, also where a
/// name can't be made because a file or a folder is in its way.
#[test]
fn makes_the_folders(rt: HostRuntime) -> Result<(), Fail> {
    let alloc = rt.alloc();
    let root = env::temp_dir(&rt)?.join(alloc, "vpf_source_makes_the_folders")?;
    let root = root.as_str();
    let name = format!(in alloc; "{root}/lib/cov/edg")?;
    let neighbour = format!(in alloc; "{root}/lib/cov/edx")?;
    let behind = format!(in alloc; "{root}/lib/cov/edg/t1/edg")?;
    let folder = format!(in alloc; "{root}/lib")?;
    let _left = fs::remove_dir_all(&rt, root);
    let mut tree = FolderTree::new(alloc, &rt);
    same(&rt, tree.size(&name), Ok(None), "before");
    same(&rt, tree.trouble().is_none(), true, "before");
    for (name, bytes, want) in [
        (name.as_str(), b"0123456789".as_slice(), Ok(())),
        (neighbour.as_str(), b"abc".as_slice(), Ok(())),
        (name.as_str(), b"0123".as_slice(), Ok(())),
        (behind.as_str(), b"5".as_slice(), Err(DeviceError::Failed)),
        (folder.as_str(), b"5".as_slice(), Err(DeviceError::Failed)),
    ] {
        same(&rt, tree.make(name, bytes), want, name);
    }
    for (name, want) in [
        (name.as_str(), b"0123".as_slice()),
        (neighbour.as_str(), b"abc".as_slice()),
    ] {
        let loaded = load(alloc, &mut tree, name, 10)?.ok_or("absent")?;
        same(&rt, loaded.as_slice(), want, name);
    }
    fs::remove_dir_all(&rt, root)?;
    Ok(())
}

/// Real files: whole and in pieces, absent, behind a file, and a folder.
#[test]
fn reads_the_folders(rt: HostRuntime) -> Result<(), Fail> {
    let alloc = rt.alloc();
    let path = env::temp_dir(&rt)?.join(alloc, "vpf_source_reads_the_folders")?;
    let name = path.as_str();
    fs::write(&rt, name, "0123456789")?;
    let mut tree = FolderTree::new(alloc, &rt);
    same(&rt, tree.size(name), Ok(Some(10)), name);
    let whole = load(alloc, &mut tree, name, 10)?.ok_or("absent")?;
    same(&rt, whole.as_slice(), b"0123456789", name);
    let large = load(alloc, &mut tree, name, 9).err();
    same(&rt, large, Some(LoadError::TooLarge { size: 10 }), name);
    // Each of the first five goes on where the one before it ended.
    let pieces: [&[u8]; 7] = [b"0123", b"4567", b"89", b"", b"", b"", b"789"];
    let mut buf = [0; 4];
    for (at, want) in [0, 4, 8, 10, 10, 11, 7].iter().zip(pieces) {
        let count = tree.read_at(name, *at, &mut buf)?;
        same(&rt, &buf[..count], want, at);
    }
    let behind = format!(in alloc; "{name}/edg")?;
    let absent = format!(in alloc; "{name}.absent")?;
    for (name, size, read) in [
        (absent.as_str(), Ok(None), Ok(0)),
        ("vpf_source_no_such_folder/edg", Ok(None), Ok(0)),
        (behind.as_str(), Err(Failed), Err(Failed)),
        (".", Err(Failed), Err(Failed)),
        ("/", Err(Failed), Err(Failed)),
    ] {
        same(&rt, tree.size(name), size, name);
        same(&rt, tree.read_at(name, 0, &mut buf), read, name);
    }
    let through = format!(in alloc; "{behind}: Not a directory (os error 20)")?;
    for (name, told) in [
        (behind.as_str(), through.as_str()),
        ("/", "/: is a directory"),
    ] {
        same(&rt, tree.size(name), Err(Failed), name);
        let trouble = tree.trouble().ok_or("nothing is told")?;
        let trouble = format!(in alloc; "{trouble}")?;
        same(&rt, trouble.as_str(), told, name);
    }
    fs::remove_file(&rt, name)?;
    Ok(())
}

#[test]
fn writes_standard_output(rt: HostRuntime) -> Result<(), Fail> {
    let mut sink = StdSink::new(&rt);
    same(&rt, sink.write(b"standard output\n"), Ok(16), "a line");
    same(&rt, sink.write(b""), Ok(0), "nothing");
    let put = put_all(&mut sink, b"more of it\n");
    same(&rt, put, Ok(()), "a line more");
    same(&rt, sink.trouble().is_none(), true, "trouble");
    Ok(())
}

fn tick_twice<L: Ledger>(steps: &mut Steps<L>)
    ensures { steps.new ≡ steps.old + 2 }
{
    steps.tick();
    steps.tick();
}

/// Counts from a blank.
fn count_two<L: Ledger>(blank: Blank)
    requires name { blank.name ≡ L.name }
    requires parts { blank.parts ≡ L.parts }
    requires some { 0 < L.parts }
{
    let mut steps = Steps::<L>::new(blank);
    tick_twice(&mut steps);
}

#[test]
fn counts_steps() {
    count_two::<Brand>(Blank::new(1));
}
