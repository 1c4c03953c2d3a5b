//! Laws about tables that are like others.

ghost use Rattle.std.specs.Prelude.{◌≡◌, ◌≢◌, ◌<◌, ◌^◌, ℕ, pos, All, AllPairs, Contains, IsTrue, List, length, map, option_map, slice_get};
ghost use Rattle.std.specs.Option.{IsSomeAnd};
ghost use Rattle.vpf_triplet.specs.declared.kinds.Count.TheVariants.{Fixed};
ghost use Rattle.vpf_triplet.specs.declared.kinds.Kind.TheVariants.{I, K};
ghost use Rattle.vpf_triplet.specs.declared.triplets.Triplet.{Triplet};
ghost use Rattle.vpf_triplet.specs.Reading.{is_small};
ghost use Rattle.vpf_value.specs.Inner.Fitting.{FitsCell};
ghost use Rattle.vpf_value.specs.Values.{NumberOf, TripletOf, Value};
ghost use Rattle.vpf_head.specs.Head.{Col, names};
ghost use Rattle.vpf_table.specs.Canonical.{FitsRow};
ghost use Rattle.vpf_table.specs.Grid.{Row};
ghost use Rattle.vpf_write.specs.declared.revise.changes.NewKind.{NewKind};
ghost use Rattle.vpf_write.specs.Revise.Revising.{FitsElsewhere, FitsIn, NewValue, revised_column, revised, revised_value, with_kinds};

/// A revised row has the new values in their columns, and every other value where it was.
pub fn rows_by_position()
    ensures width { (changes : List NewValue) (row : Row) → length (revised changes row) ≡ length row }
    ensures each { (changes : List NewValue) (row : Row) (c : ℕ) → slice_get (revised changes row) c
        ≡ option_map (revised_value changes c) (slice_get row c) }
{}

/// Columns with new kinds have the same names, and differ from what they were in these kinds alone.
pub fn columns_by_position()
    ensures width { (kinds : List NewKind) (columns : List Col) → length (with_kinds kinds columns) ≡ length columns }
    ensures names { (kinds : List NewKind) (columns : List Col) → names (with_kinds kinds columns) ≡ names columns }
    ensures each { (kinds : List NewKind) (columns : List Col) (c : ℕ) → slice_get (with_kinds kinds columns) c
        ≡ option_map (revised_column kinds c) (slice_get columns c) }
{}

/// The values of a row that fits its table's columns fit those with new kinds too, where each column of a new kind gets a new
/// value, as where new values and new kinds are for the same columns. Where the new values fit, so does the revised row.
pub fn revised_rows_fit()
    ensures others { (kinds : List NewKind) (changes : List NewValue) (columns : List Col) (row : Row)
        → All (λ kind. Contains (map (λ new. new.column) changes) kind.column) kinds → FitsRow columns row
        → FitsElsewhere changes (with_kinds kinds columns) row }
    ensures same { (kinds : List NewKind) (changes : List NewValue) (columns : List Col) (row : Row)
        → map (λ kind. kind.column) kinds ≡ map (λ new. new.column) changes → FitsRow columns row → FitsElsewhere changes (with_kinds kinds columns) row }
    ensures row { (changes : List NewValue) (columns : List Col) (row : Row) → All (FitsIn columns) changes → FitsElsewhere changes columns row
        → FitsRow columns (revised changes row) }
{}

/// Each number from 0 to 2^31 - 1 fits a column of kind I, and each triplet id whose parts are below 2^31 one of kind K.
pub fn numbers_and_ids_fit()
    ensures numbers { (n : ℕ) → n < 2 ^ 31 → FitsCell I (Fixed 1) (NumberOf (pos n)) }
    ensures ids { (id : Triplet) → IsTrue (is_small id.id) → IsTrue (is_small id.tile) → IsTrue (is_small id.ext) → FitsCell K (Fixed 1) (TripletOf id) }
{}

/// Where each new kind is for another column, a value of a new kind fits the column that takes the kind. A value that fits a
/// column without a new kind fits it still.
pub fn values_of_new_kinds_fit()
    ensures taken { (kinds : List NewKind) (columns : List Col) (kind : NewKind) (value : Value) → AllPairs (λ a b. a.column ≢ b.column) kinds
        → Contains kinds kind → IsSomeAnd (slice_get columns kind.column) (λ column. column.count ≡ Fixed 1) → FitsCell kind.kind (Fixed 1) value
        → FitsIn (with_kinds kinds columns) (record { column = kind.column; value = value }) }
    ensures kept { (kinds : List NewKind) (columns : List Col) (new : NewValue) → All (λ kind. kind.column ≢ new.column) kinds
        → FitsIn columns new → FitsIn (with_kinds kinds columns) new }
{}
