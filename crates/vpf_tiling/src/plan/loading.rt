//! The plan of a coverage, read once and kept.

ghost use Rattle.std.specs.Prelude.{◌≡◌, ◌≤◌, ℕ, List, IfOk, IsErrOf, Ok, Some};
ghost use Rattle.vpf_base.specs.Results.{Meets};
ghost use Rattle.vpf_source.specs.Causes.{Rose, Stood};
ghost use Rattle.vpf_source.specs.Files.{Files};
ghost use Rattle.vpf_table.specs.Grid.{Grid};
ghost use Rattle.vpf_findings.specs.Findings.{disagreement_of};
ghost use Rattle.vpf_findings.specs.Printing.{own_of};
ghost use Rattle.vpf_library_files.specs.declared.loading.loading.LoadStop.TheVariants as stops;
ghost use Rattle.vpf_library_files.specs.Loading.Holding.{AreFilesOf};
ghost use Rattle.vpf_library_files.specs.Loading.Loading.{LoadedTable, most_loaded, stop_seen};
ghost use Rattle.vpf_library_files.specs.Loading.Loads.{ReadsAs};
ghost use Rattle.vpf_tiling.specs.Plan.PlanLoads.{AreOfPlan, ArePlanFiles, read_plan, unless_found};
ghost use Rattle.vpf_tiling.specs.Plan.Plans.{IsPlanTable, plan_finding};

use crate::plan::columns::PlanColumns;
use crate::plan::laws::plans_decide;
use std::alloc::{AllocError, Global};
use vpf_findings::{Finding, OwnFinding};
use vpf_library_files::loading::{LoadStop, LoadedTables, required_table};
use vpf_source::{Name, Tree};
use vpf_table::TableView;
use vpf_table::laws::{opened_is_read, spelled_is_opened};

/// The finding on the plan of this name, as it stops the load.
fn stop_of(alloc: Global, name: &str, finding: &Finding<'_>) -> Result<LoadStop, AllocError>
    ensures { IfOk result (λ stop. stop ≡ stops.Finding name.now (own_of (disagreement_of finding.now))) }
{
    let own = OwnFinding::of(alloc, finding)?;
    let name = Name::new(String::from_str(alloc, name)?);
    Ok(LoadStop::Finding(name, own))
}

/// Looks at the columns of a plan.
fn check_columns(alloc: Global, name: &str, plan: &LoadedTables) -> Result<(), LoadStop>
    requires { (grid : Grid) × AreFilesOf name.now grid plan.now }
    ensures finds { (table : LoadedTable) → AreFilesOf name.now table.grid plan.now
        → Meets (λ _. table) stop_seen result (unless_found name.now (plan_finding table.grid) table) }
    ensures no_fault { ¬ IsErrOf result LoadStop.Fault }
{
    let table = plan.only(alloc)?;
    match PlanColumns::place(table.header()) {
        Ok(_) => Ok(()),
        Err(finding) => Err(stop_of(alloc, name, &finding)?),
    }
}

/// The plan of this name, which has to be there: its own file, and its variable-length index where its rows vary.
///
/// Its columns are looked at when it is read: one that is absent, or that holds no numbers, stops the load, as `Finding`. Its ids and the
/// numbers of tiles aren't. The other stops are those of `load_coverage`, and `loaded` counts as it does there.
pub fn load_plan<T: Tree>(
    alloc: Global,
    tree: &mut T,
    name: &str,
    loaded: &mut u64,
) -> Result<LoadedTables, LoadStop>
    requires { loaded.old ≤ most_loaded }
    // What is loaded, or what stops it, and the bytes that were read, where the tree tells its files.
    ensures told { (files : Files) → T.files tree.old ≡ Some files
        → ReadsAs (λ v table. table.files ≡ v) result loaded.new (read_plan files name.now loaded.old) }
    // The files are those of the plan that is read.
    ensures held { (files : Files) → T.files tree.old ≡ Some files → (table : LoadedTable) (n : ℕ) → read_plan files name.now loaded.old ≡ (Ok table, n)
        → IfOk result (λ v. ArePlanFiles name.now table.grid v) }
    // These hold over every tree.
    ensures are { IfOk result (λ plan. AreOfPlan name.now plan) }
    ensures rising { loaded.old ≤ loaded.new }
    ensures most { loaded.new ≤ most_loaded }
    ensures fault { IsErrOf result LoadStop.Fault → Rose (T.faults tree.old) (T.faults tree.new) }
    ensures stood { ¬ IsErrOf result LoadStop.Fault → Stood (T.faults tree.old) (T.faults tree.new) }
    ensures later { T.faults tree.old ≤ T.faults tree.new }
    ensures files { T.files tree.new ≡ T.files tree.old }
{
    spelled_is_opened();
    opened_is_read();
    plans_decide();
    let plan = required_table(alloc, tree, name, loaded)?;
    check_columns(alloc, name, &plan)?;
    Ok(plan)
}

/// The plan that `load_plan` gives.
pub fn open_plan<'a>(alloc: Global, plan: &'a LoadedTables) -> Result<TableView<'a>, AllocError>
    requires { (name : List ℕ) × AreOfPlan name plan.now }
    ensures table { (name : List ℕ) (grid : Grid) → AreFilesOf name grid plan.now → IfOk result (λ table. table ≡ grid) }
    ensures plan { IfOk result IsPlanTable }
{
    plan.only(alloc)
}
