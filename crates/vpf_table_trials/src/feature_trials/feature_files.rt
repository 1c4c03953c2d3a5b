//! Features whose thematic index would be too long in another folder: no file that a command reads holds as many.

ghost use Rattle.std.specs.Prelude.{codes};
ghost use Rattle.vpf_feature_files.specs.Inner.Held.{AreOfSchema};

use crate::feature_trials::same::same;
use std::alloc::{AllocError, Global};
use std::test::Fail;
use vpf_feature_files::{FeatureFiles, load_features};
use vpf_feature_writing::feature_files;
use vpf_features::open_features;
use vpf_library_files::table_files::AddError;
use vpf_source::{File, MemTree, Name};
use vpf_table::{Bound, Limit};

/// The schema table: roads are joined to edges.
const CLASSES: &[u8] =
    b"\x9c\0\0\0L;Classes;-;feature_class=T,8,N,Class,-,-,-,:table1=T,12,N,Table,-,-,-,:table1_key=T,4,N,Key,-,-,-,:table2=T,4,N,Table,-,-,-,:table2_key=T,12,N,Key,-,-,-,:;roadl   ROADL.LFT   id  edg roadl.lft_id";

/// The columns of roads with their lanes, and an index of the lanes of one road.
const LANES: &[u8] =
    b"\x4c\0\0\0L;Roads;-;id=I,1,P,Row Identifier,-,-,-,:lanes=S,1,N,Lanes,-,F_CODE.LTI,-,:;";

const LANES_BITMAP: &[u8] =
    b"\x46\0\0\0\x01\0\0\0\x01\0\0\0BS\x01\0\0\0Sroadl.lft   lanes                    S\0\0\0\0\0\x46\0\0\0\x01\0\0\0\x01";

/// A tree with the roads and an index of one.
fn tree_of(alloc: Global, roads: &[u8]) -> Result<MemTree, AllocError> {
    let mut tree = MemTree::new(alloc, 4096, Vec::new(alloc));
    tree.put("lib/cov/fcs", CLASSES)?;
    tree.put("lib/cov/roadl.lft", roads)?;
    tree.put("lib/cov/f_code.lti", LANES_BITMAP)?;
    Ok(tree)
}

/// What is made of files that were read.
fn made(alloc: Global, files: &FeatureFiles) -> Result<Result<Vec<File>, AddError>, Fail>
    requires { AreOfSchema (codes "lib/cov") files.now }
{
    match open_features(alloc, "lib/cov", files) {
        Ok(schema) => Ok(feature_files(alloc, "new/cov", &schema)),
        Err(_) => Err("the features aren't taken".into()),
    }
}

/// What is made of a tree.
fn made_of(alloc: Global, tree: &mut MemTree) -> Result<Result<Vec<File>, AddError>, Fail> {
    let mut loaded = 0;
    match load_features(alloc, tree, "lib/cov", &mut loaded) {
        Ok(files) => made(alloc, &files),
        Err(_) => Err("the files aren't read".into()),
    }
}

/// The limit that is told, with the name of the file that would pass it.
fn limit_of(made: Result<Vec<File>, AddError>) -> Option<(Name, Limit)> {
    match made {
        Ok(_files) => None,
        Err(AddError::Limit(name, limit)) => Some((name, limit)),
        Err(AddError::NoMemory) => None,
    }
}

#[test]
fn tells_an_index_that_is_too_long(rt: HostRuntime) -> Result<(), Fail> {
    let alloc = rt.alloc();
    let mut roads = LANES.to_vec(alloc)?;
    for lanes in 0..30_000_i16 {
        let id = i32::from(lanes) + 1;
        roads.extend_from_slice(&id.to_le_bytes())?;
        roads.extend_from_slice(&lanes.to_le_bytes())?;
    }
    let mut tree = tree_of(alloc, &roads)?;
    let what = Bound::File;
    let found = 60 + 30_000 * (2 + 8 + 3_750);
    let Some((name, limit)) = limit_of(made_of(alloc, &mut tree)?) else {
        return Err("no limit is told".into());
    };
    same(&rt, name.as_str(), "new/cov/f_code.lti", "name");
    same(&rt, limit, Limit { what, found }, "limit");
    Ok(())
}
