//! The whole program, over any tree and any sink.

ghost use Rattle.std.specs.Prelude.{◌≡◌, ◌≢◌, ◌≤◌, ◌⊎◌, ℕ, List, [], ◌∷◌, IfOk, IfSome, IsErrOf, None, Some, codes, is_some, length, map, string_bytes};
ghost use Rattle.std.specs.Io.KnownBytes.{Keeps};
ghost use Rattle.vpf_source.specs.Causes.{Rose, Stood};
ghost use Rattle.vpf_source.specs.Files.{Files};
ghost use Rattle.vpf_source.specs.Writing.{TellsAsBefore};
ghost use Rattle.vpf_triplet.specs.declared.places.Place.{Place};
ghost use Rattle.vpf_table.specs.Faults.{FirstFault};
ghost use Rattle.vpf_table.specs.Grid.{Grid};
ghost use Rattle.vpf_table.specs.Spelling.{IsTable};
ghost use Rattle.vpf_replies.specs.Answer.{Answer, done, usage_answer};
ghost use Rattle.vpf_replies.specs.Tables.{fault_answer};
ghost use Rattle.vpf_replies.specs.Halting.{ComesTo, TellsFault};
ghost use Rattle.vpf_feature_commands.specs.Reading.{FeaturedCoverage};
ghost use Rattle.vpf_library_commands.specs.declared.checking.CheckRequest.{CheckRequest};
ghost use Rattle.vpf_library_commands.specs.declared.requesting.MakeRequest.{MakeRequest};
ghost use Rattle.vpf_library_commands.specs.Agreeing.{Agrees, IsAgreeing};
ghost use Rattle.vpf_library_commands.specs.Tile.{TileParts};
ghost use Rattle.vpf_library_commands.specs.TileTheorem.Tilings.Sources.{HasTileSource, IsTileSource};
ghost use Rattle.vpf_prims.specs.Reading.{primitives_of};
ghost use Rattle.vpf_prims.specs.Tables.{TileTables};
ghost use Rattle.vpf_replies.specs.Making.{made_answer};
ghost use Rattle.vpf_run.specs.Joining.{IsJoining};
ghost use Rattle.vpf_drill.specs.Cutting.{cut_files, cut_plan};
ghost use Rattle.vpf_drill.specs.Request.{CanBeAsked};
ghost use Rattle.vpf_library_files.specs.Loading.Loading.{within};
ghost use Rattle.vpf_library_commands.specs.FeatureReadingLaws.{LacksThemes};
ghost use Rattle.vpf_drill.specs.Tilings.{AnswersTiling, HoldsTiling, StandsAlone, made_request};
ghost use Rattle.vpf_library_commands.specs.Check.{agrees_text, check_request};
ghost use Rattle.vpf_library_commands.specs.Make.{make_request};
ghost use Rattle.vpf_darts.specs.declared.darts.TileDart.{TileDart};
ghost use Rattle.vpf_darts.specs.Listings.{numbers_of};
ghost use Rattle.vpf_prims.specs.Libraries.{library_of};
ghost use Rattle.vpf_replies.specs.Listings.{listing_text};
ghost use Rattle.vpf_library_commands.specs.TraceTracing.{IsTrace};
ghost use Rattle.vpf_table_commands.specs.declared.indexing.IndexRequest.{IndexRequest};
ghost use Rattle.vpf_table_commands.specs.declared.selecting.RowsRequest.{RowsRequest};
ghost use Rattle.vpf_table_commands.specs.Rows.{IndexAgrees};
ghost use Rattle.vpf_feature_commands.specs.declared.requesting.SelectRequest.{SelectRequest};
ghost use Rattle.vpf_feature_commands.specs.Plain.{FeatureIndexAgrees, plain_select_answer};
ghost use Rattle.vpf_run.specs.declared.command.Command.{Command};
ghost use Rattle.vpf_run.specs.declared.command.Command.TheVariants.{Drill, Index, Rows, Select};
ghost use Rattle.vpf_run.specs.Commands.{command_of, IsAnswerTo, IsAnswer, IsAnswerAlone};
ghost use Rattle.vpf_run.specs.Grammar.{HasFile, IsOver, SaysOfTable};
ghost use Rattle.vpf_run.specs.Indexed.{AsksForIndexed, IsPlainAnswer};
ghost use Rattle.vpf_run.specs.Run.{Carries, IsCompleted, Prints};

use crate::command::{Command, read_command};
use crate::laws::{
    answers_follow_the_grammar, checks_decide, one_answer, plain_answers, traces_list_cycles,
};
use crate::status::Status;
use std::alloc::Global;
use vpf_drill::drill;
use vpf_drill::laws::{one_drill, requests_can_be_asked};
use vpf_drill::tile_theorem::tilings::laws::{
    requests_have_names, rest_is_lacked, sources_are_cut, tiles_are_made, tilings_agree,
};
use vpf_feature_commands::laws::plain_selections;
use vpf_feature_commands::select;
use vpf_library_commands::laws::glue_decides_agreement;
use vpf_library_commands::{check, glue, tile, trace};
use vpf_replies::{Halt, Reply, Stop, settle};
use vpf_source::{DeviceError, Sink, Tree, make_all, put_all};
use vpf_table::laws::opened_is_read;
use vpf_table_commands::laws::{indexes_are_elsewhere, made_indexes_serve};
use vpf_table_commands::{cycles, index, rows, show, swap, table};

/// The reply of a command over a tree.
fn obey<T: Tree>(alloc: Global, command: &Command, tree: &mut T) -> Result<Reply, Halt>
    ensures told { (files : Files) → T.files tree.old ≡ Some files → ComesTo (IsAnswerTo command.now files) result }
    ensures alone { (answer : Answer) → IsAnswerAlone command.now answer → ComesTo (IsAnswerAlone command.now) result }
    ensures drilled { (n : ℕ) → command.now ≡ Drill n → ¬ IsErrOf result (Halt.Stop Stop.TreeFault) }
    ensures fault { TellsFault result (Halt.Stop Stop.TreeFault) (T.faults tree.old) (T.faults tree.new) }
    ensures files { T.files tree.new ≡ T.files tree.old }
{
    match command {
        Command::Show(request) => show(alloc, request, tree),
        Command::Table(request) => table(alloc, request, tree),
        Command::Cycles(request) => cycles(alloc, request, tree),
        Command::Swap(request) => swap(alloc, request, tree),
        Command::Index(request) => index(alloc, request, tree),
        Command::Rows(request) => rows(alloc, request, tree),
        Command::Check(request) => check(alloc, request, tree),
        Command::Trace(request) => trace(alloc, request, tree),
        Command::Tile(request) => tile(alloc, request, tree),
        Command::Glue(request) => glue(alloc, request, tree),
        Command::Select(request) => select(alloc, request, tree),
        Command::Drill(request) => Ok(drill(alloc, request)?),
    }
}

/// The reply to a command.
fn reply_to<T: Tree>(alloc: Global, command: &Command, tree: &mut T) -> Result<Reply, Stop>
    ensures told { (answer : Answer) → IsAnswer (Some command.now) (T.files tree.old) answer → IfOk result (IsAnswer (Some command.now) (T.files tree.old)) }
    ensures fault { TellsFault result Stop.TreeFault (T.faults tree.old) (T.faults tree.new) }
    ensures drilled { (n : ℕ) → command.now ≡ Drill n → ¬ IsErrOf result Stop.TreeFault }
    ensures files { T.files tree.new ≡ T.files tree.old }
{
    settle(obey(alloc, command, tree))
}

/// Prints the line that answers words that are no command.
fn print_usage<O: Sink>(out: &mut O) -> Status
    ensures prints { Prints usage_answer result (O.written out.old) (O.written out.new) }
    ensures sink_fault { result ≡ Status.SinkFault → Rose (O.faults out.old) (O.faults out.new) }
    ensures sink_stood { result ≢ Status.SinkFault → Stood (O.faults out.old) (O.faults out.new) }
    ensures no_tree_fault { result ≢ Status.TreeFault }
    ensures tells { TellsAsBefore (O.written out.old) (O.written out.new) }
    ensures later { O.faults out.old ≤ O.faults out.new }
{
    match put_all(out, b"usage\n") {
        Ok(()) => Status::Usage,
        Err(DeviceError::Failed) => Status::SinkFault,
        Err(DeviceError::NoMemory) => Status::NoMemory,
    }
}

/// Prints a reply, whose files are made.
fn print_reply<O: Sink>(out: &mut O, reply: &Reply) -> Status
    ensures prints { Prints reply.now result (O.written out.old) (O.written out.new) }
    ensures sink_fault { result ≡ Status.SinkFault → Rose (O.faults out.old) (O.faults out.new) }
    ensures sink_stood { result ≢ Status.SinkFault → Stood (O.faults out.old) (O.faults out.new) }
    ensures no_tree_fault { result ≢ Status.TreeFault }
    ensures asked { result ≢ Status.Usage }
    ensures tells { TellsAsBefore (O.written out.old) (O.written out.new) }
    ensures later { O.faults out.old ≤ O.faults out.new }
{
    match put_all(out, reply.text()) {
        Ok(()) => Status::from(reply.verdict()),
        Err(DeviceError::Failed) => Status::SinkFault,
        Err(DeviceError::NoMemory) => Status::NoMemory,
    }
}

/// Makes the files of a reply, and prints it.
fn carry_out<T: Tree, O: Sink>(tree: &mut T, out: &mut O, reply: &Reply) -> Status
    ensures carries { Carries reply.now result (record { files = T.files tree.old; written = O.written out.old })
        (record { files = T.files tree.new; written = O.written out.new }) }
    ensures tree_fault { result ≡ Status.TreeFault → Rose (T.faults tree.old) (T.faults tree.new) }
    ensures tree_stood { result ≢ Status.TreeFault → Stood (T.faults tree.old) (T.faults tree.new) }
    ensures sink_fault { result ≡ Status.SinkFault → Rose (O.faults out.old) (O.faults out.new) }
    ensures sink_stood { result ≢ Status.SinkFault → Stood (O.faults out.old) (O.faults out.new) }
    ensures makes_none { reply.now.made ≡ [] → result ≢ Status.TreeFault }
    ensures asked { result ≢ Status.Usage }
    ensures silent { result ≡ Status.TreeFault → Keeps (O.written out.old) (O.written out.new) }
    ensures tells { TellsAsBefore (O.written out.old) (O.written out.new) }
    ensures tells_files { is_some (T.files tree.new) ≡ is_some (T.files tree.old) }
    ensures tree_later { T.faults tree.old ≤ T.faults tree.new }
    ensures sink_later { O.faults out.old ≤ O.faults out.new }
{
    match make_all(tree, reply.made()) {
        Ok(()) => print_reply(out, reply),
        Err(DeviceError::Failed) => Status::TreeFault,
        Err(DeviceError::NoMemory) => Status::NoMemory,
    }
}

/// Does a command, as `run` does.
fn do_command<T: Tree, O: Sink>(
    alloc: Global,
    command: &Command,
    tree: &mut T,
    out: &mut O,
) -> Status
    ensures answer { (answer : Answer) → IsAnswer (Some command.now) (T.files tree.old) answer
        → Carries answer result (record { files = T.files tree.old; written = O.written out.old })
        (record { files = T.files tree.new; written = O.written out.new }) }
    ensures tree_fault { result ≡ Status.TreeFault → Rose (T.faults tree.old) (T.faults tree.new) }
    ensures tree_stood { result ≢ Status.TreeFault → Stood (T.faults tree.old) (T.faults tree.new) }
    ensures sink_fault { result ≡ Status.SinkFault → Rose (O.faults out.old) (O.faults out.new) }
    ensures sink_stood { result ≢ Status.SinkFault → Stood (O.faults out.old) (O.faults out.new) }
    ensures completed { (answer : Answer) → IsAnswer (Some command.now) (T.files tree.old) answer
        → ¬ Rose (T.faults tree.old) (T.faults tree.new) → ¬ Rose (O.faults out.old) (O.faults out.new) → IsCompleted answer result }
    ensures asked { result ≢ Status.Usage }
    ensures drilled { (n : ℕ) → command.now ≡ Drill n → CanBeAsked n → result ≢ Status.TreeFault }
    ensures silent { result ≡ Status.TreeFault → Keeps (O.written out.old) (O.written out.new) }
    ensures tells { TellsAsBefore (O.written out.old) (O.written out.new) }
    ensures tells_files { is_some (T.files tree.new) ≡ is_some (T.files tree.old) }
    ensures tree_later { T.faults tree.old ≤ T.faults tree.new }
    ensures sink_later { O.faults out.old ≤ O.faults out.new }
{
    one_answer();
    one_drill();
    match reply_to(alloc, command, tree) {
        Ok(reply) => carry_out(tree, out, &reply),
        Err(Stop::TreeFault) => Status::TreeFault,
        Err(Stop::NoMemory) => Status::NoMemory,
    }
}

/// Does what the words ask, as `run` does.
fn do_words<T: Tree, O: Sink>(alloc: Global, words: &[String], tree: &mut T, out: &mut O) -> Status
    ensures answer { (answer : Answer) → IsAnswer (command_of (map string_bytes words.now)) (T.files tree.old) answer
        → Carries answer result (record { files = T.files tree.old; written = O.written out.old })
        (record { files = T.files tree.new; written = O.written out.new }) }
    ensures tree_fault { result ≡ Status.TreeFault → Rose (T.faults tree.old) (T.faults tree.new) }
    ensures tree_stood { result ≢ Status.TreeFault → Stood (T.faults tree.old) (T.faults tree.new) }
    ensures sink_fault { result ≡ Status.SinkFault → Rose (O.faults out.old) (O.faults out.new) }
    ensures sink_stood { result ≢ Status.SinkFault → Stood (O.faults out.old) (O.faults out.new) }
    ensures completed { (answer : Answer) → IsAnswer (command_of (map string_bytes words.now)) (T.files tree.old) answer
        → ¬ Rose (T.faults tree.old) (T.faults tree.new) → ¬ Rose (O.faults out.old) (O.faults out.new) → IsCompleted answer result }
    ensures usage { command_of (map string_bytes words.now) ≡ None → result ≢ Status.TreeFault }
    ensures only_usage { result ≡ Status.Usage → command_of (map string_bytes words.now) ≡ None }
    ensures drilled { (n : ℕ) → command_of (map string_bytes words.now) ≡ Some (Drill n) → result ≢ Status.TreeFault }
    ensures silent { result ≡ Status.TreeFault → Keeps (O.written out.old) (O.written out.new) }
    ensures tells { TellsAsBefore (O.written out.old) (O.written out.new) }
    ensures tells_files { is_some (T.files tree.new) ≡ is_some (T.files tree.old) }
    ensures tree_later { T.faults tree.old ≤ T.faults tree.new }
    ensures sink_later { O.faults out.old ≤ O.faults out.new }
{
    requests_can_be_asked();
    match read_command(alloc, words) {
        Ok(Some(command)) => do_command(alloc, &command, tree, out),
        Ok(None) => print_usage(out),
        Err(_) => Status::NoMemory,
    }
}

/// Does what the words ask, over the files of a tree, and prints the answer to a sink. The words are those after the
/// program's name. All files and all text are composed before the first file is made, and all files are made before the
/// first byte of the text is written.
pub fn run<T: Tree, O: Sink>(alloc: Global, words: &[String], tree: &mut T, out: &mut O) -> Status
    // Where the tree tells its files, status, files and text are those of the answer, as far as no fault ended the run.
    ensures answer { (answer : Answer) → IsAnswer (command_of (map string_bytes words.now)) (T.files tree.old) answer
        → Carries answer result (record { files = T.files tree.old; written = O.written out.old })
        (record { files = T.files tree.new; written = O.written out.new }) }

    // Over a file that is spelled as a table the answer is what the command says of that table; over one that has a first
    // fault it is that fault. The two decide: a file is the one or the other, and never both.
    ensures spelled { (command : Command) (files : Files) (name bytes : List ℕ) (g : Grid) (answer : Answer)
        → command_of (map string_bytes words.now) ≡ Some command → T.files tree.old ≡ Some files → HasFile files name bytes
        → IsTable g bytes → SaysOfTable files bytes g command name answer
        → Carries answer result (record { files = T.files tree.old; written = O.written out.old })
        (record { files = T.files tree.new; written = O.written out.new }) }
    ensures faulty { (command : Command) (files : Files) (name bytes : List ℕ) (place : Place) → command_of (map string_bytes words.now) ≡ Some command
        → T.files tree.old ≡ Some files → HasFile files name bytes → FirstFault bytes None place → IsOver command name
        → Carries (fault_answer name place) result (record { files = T.files tree.old; written = O.written out.old })
        (record { files = T.files tree.new; written = O.written out.new }) }

    // Where the thematic index of the column agrees with it, `rows` does what a plain scan of the column does.
    ensures indexed { (files : Files) (request : RowsRequest) (answer : Answer) → command_of (map string_bytes words.now) ≡ Some (Rows request)
        → T.files tree.old ≡ Some files → IndexAgrees files request → IsPlainAnswer files request answer
        → Carries answer result (record { files = T.files tree.old; written = O.written out.old })
        (record { files = T.files tree.new; written = O.written out.new }) }

    // Where the run has made an index of a column, that index agrees with it: `rows` then does what a plain scan does.
    ensures built { (files : Files) (request : IndexRequest) (asked : RowsRequest) → command_of (map string_bytes words.now) ≡ Some (Index request)
        → T.files tree.old ≡ Some files → AsksForIndexed files request asked → result ≡ Status.Done
        → IfSome (T.files tree.new) (λ after. IndexAgrees after asked) }

    // Where the thematic index of the column that is asked for agrees with it, `select` does what plain scans of the feature table do.
    ensures selected { (files : Files) (request : SelectRequest) → command_of (map string_bytes words.now) ≡ Some (Select request)
        → T.files tree.old ≡ Some files → FeatureIndexAgrees files request
        → Carries (plain_select_answer files request) result (record { files = T.files tree.old; written = O.written out.old })
        (record { files = T.files tree.new; written = O.written out.new }) }

    // `check` is done exactly where the files hold the coverage in the grammar of tables, its columns are right and its rows agree, in each
    // tile and across the tiles, and the files hold its features, which agree: then it prints the numbers of primitives of all its tiles.
    ensures checked { (files : Files) (rest : List (List ℕ)) (request : CheckRequest) (read : FeaturedCoverage)
        → map string_bytes words.now ≡ codes "check" ∷ rest → check_request rest ≡ Some request
        → T.files tree.old ≡ Some files → IsAgreeing files request read
        → Carries (done (agrees_text read.coverage.coverage)) result (record { files = T.files tree.old; written = O.written out.old })
        (record { files = T.files tree.new; written = O.written out.new }) }
    ensures agrees { (files : Files) (rest : List (List ℕ)) (request : CheckRequest)
        → map string_bytes words.now ≡ codes "check" ∷ rest → check_request rest ≡ Some request
        → T.files tree.old ≡ Some files → result ≡ Status.Done → Agrees files request }

    // `trace` is done exactly where `check` is: then it prints the boundary cycles of the coverage, its lines between tiles passed over, each
    // home dart of another edge once.
    ensures traced { (files : Files) (rest : List (List ℕ)) (request : CheckRequest) (read : FeaturedCoverage) (cycles : List (List TileDart))
        → map string_bytes words.now ≡ codes "trace" ∷ rest → check_request rest ≡ Some request
        → T.files tree.old ≡ Some files → IsAgreeing files request read
        → IsTrace (library_of read.coverage.coverage) (numbers_of cycles)
        → Carries (done (listing_text cycles)) result (record { files = T.files tree.old; written = O.written out.old })
        (record { files = T.files tree.new; written = O.written out.new }) }
    ensures traceable { (files : Files) (rest : List (List ℕ)) (request : CheckRequest)
        → map string_bytes words.now ≡ codes "trace" ∷ rest → check_request rest ≡ Some request
        → T.files tree.old ≡ Some files → result ≡ Status.Done → Agrees files request }

    // Of a well-formed untiled coverage that the tree holds, with features that agree and a plan that serves, where no features are joined by numbers and no
    // file passes a bound, `tile` makes the files of its tiled library: the tables of the tiles, each primitive in the tiles of its faces, in their order, and
    // behind them the files of the features, with thematic indexes built anew, and no others. It is done of such a coverage alone.
    ensures tiled { (files : Files) (rest : List (List ℕ)) (request : MakeRequest) (parts : TileParts) (tables : TileTables)
        → map string_bytes words.now ≡ codes "tile" ∷ rest → make_request rest ≡ Some request
        → T.files tree.old ≡ Some files → IsTileSource files request parts tables
        → Carries (made_answer (cut_files request parts tables)) result (record { files = T.files tree.old; written = O.written out.old })
        (record { files = T.files tree.new; written = O.written out.new }) }
    ensures tileable { (files : Files) (rest : List (List ℕ)) (request : MakeRequest)
        → map string_bytes words.now ≡ codes "tile" ∷ rest → make_request rest ≡ Some request
        → T.files tree.old ≡ Some files → result ≡ Status.Done → HasTileSource files request }

    // And what it makes is that coverage: where `tile` is done, no file stood in its folder before, no two of the files that it makes have one name, they
    // have no more bytes in all than a run reads, and no thematic index is there after that the features lacked, then the tree holds the tiled library: it agrees, with its
    // features, and its boundary cycles are exactly those of the coverage without its lines between tiles, each dart called by its name in the tiles.
    ensures rejoined { (before after : Files) (rest : List (List ℕ)) (request : MakeRequest) (parts : TileParts) (tables : TileTables)
        → map string_bytes words.now ≡ codes "tile" ∷ rest → make_request rest ≡ Some request
        → T.files tree.old ≡ Some before → T.files tree.new ≡ Some after
        → result ≡ Status.Done → IsTileSource before request parts tables → StandsAlone before request.out (cut_files request parts tables)
        → LacksThemes after (within request.out request.cov) parts.schema → HoldsTiling after (made_request request) (primitives_of tables.tables)
        (cut_plan parts tables) (length parts.tileref.grid.rows) parts.schema }

    // So `check` accepts that library, with the numbers of primitives of its tiles, and `trace` lists exactly these cycles.
    ensures answered { (before after : Files) (rest : List (List ℕ)) (request : MakeRequest) (parts : TileParts) (tables : TileTables)
        → map string_bytes words.now ≡ codes "tile" ∷ rest → make_request rest ≡ Some request
        → T.files tree.old ≡ Some before → T.files tree.new ≡ Some after
        → result ≡ Status.Done → IsTileSource before request parts tables → StandsAlone before request.out (cut_files request parts tables)
        → LacksThemes after (within request.out request.cov) parts.schema → AnswersTiling after (made_request request) (primitives_of tables.tables)
        (cut_plan parts tables) (length parts.tileref.grid.rows) parts.schema }

    // `glue` is done only where a coverage in tiles agrees with its features. Then the tree holds besides the files of the coverage that its tiles are glued
    // to: tables that say it, the table of tiles, the plan that names the tile of each face; and behind them those of its features.
    ensures joined { (before after : Files) (rest : List (List ℕ)) (request : MakeRequest)
        → map string_bytes words.now ≡ codes "glue" ∷ rest → make_request rest ≡ Some request
        → T.files tree.old ≡ Some before → T.files tree.new ≡ Some after → result ≡ Status.Done → IsJoining before after request }

    // A fault is answered exactly where its count rose in this call; where neither rose, the run is completed.
    ensures tree_fault { result ≡ Status.TreeFault → Rose (T.faults tree.old) (T.faults tree.new) }
    ensures tree_stood { result ≢ Status.TreeFault → Stood (T.faults tree.old) (T.faults tree.new) }
    ensures sink_fault { result ≡ Status.SinkFault → Rose (O.faults out.old) (O.faults out.new) }
    ensures sink_stood { result ≢ Status.SinkFault → Stood (O.faults out.old) (O.faults out.new) }
    ensures completed { (answer : Answer) → IsAnswer (command_of (map string_bytes words.now)) (T.files tree.old) answer
        → ¬ Rose (T.faults tree.old) (T.faults tree.new) → ¬ Rose (O.faults out.old) (O.faults out.new) → IsCompleted answer result }

    // These hold over every tree. Only words that are no command are answered with usage. `drill` is done, unless the sink fails or memory runs out: its
    // grid can be cut into tiles, and what comes of it agrees.
    ensures usage { command_of (map string_bytes words.now) ≡ None → result ≢ Status.TreeFault }
    ensures only_usage { result ≡ Status.Usage → command_of (map string_bytes words.now) ≡ None }
    ensures drilled { (n : ℕ) → command_of (map string_bytes words.now) ≡ Some (Drill n)
        → (result ≡ Status.Done) ⊎ ((result ≡ Status.SinkFault) ⊎ (result ≡ Status.NoMemory)) }
    ensures silent { result ≡ Status.TreeFault → Keeps (O.written out.old) (O.written out.new) }
    ensures tells { TellsAsBefore (O.written out.old) (O.written out.new) }
    ensures tells_files { is_some (T.files tree.new) ≡ is_some (T.files tree.old) }
    ensures tree_later { T.faults tree.old ≤ T.faults tree.new }
    ensures sink_later { O.faults out.old ≤ O.faults out.new }
{
    answers_follow_the_grammar();
    checks_decide();
    traces_list_cycles();
    tiles_are_made();
    sources_are_cut();
    rest_is_lacked();
    tilings_agree();
    requests_have_names();
    glue_decides_agreement();
    plain_answers();
    plain_selections();
    one_answer();
    one_drill();
    requests_can_be_asked();
    made_indexes_serve();
    indexes_are_elsewhere();
    opened_is_read();
    do_words(alloc, words, tree, out)
}
