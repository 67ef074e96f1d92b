// Laws of class tables, each the contract of a function that does nothing.
ghost use Rattle.std.specs.Prelude.{◌≡◌, ◌+◌, ◌*◌, ◌<◌, ◌≤◌, ◌↔◌, ℕ, List, [], ◌∷◌, ◌++◌, length, IsTrue, Some, Ok, Err, slice_get};
ghost use Rattle.protocol_model.specs.Limits.{class_limit, segment_limit};
ghost use Rattle.protocol_model.specs.declared.Kind.{Kind};
ghost use Rattle.protocol_model.specs.BuiltIn.{built_in_table};
ghost use Rattle.protocol_model.specs.Payload.{args_bits};
ghost use Rattle.protocol_model.specs.Value.{Arg, Call, Class, Table, args_fit, class_guid, prop_at};
ghost use Rattle.serde_json.specs.Data.{Data};
ghost use Rattle.table_model.specs.BuiltInFile.{built_in_file};
ghost use Rattle.table_model.specs.Checked.{Refusal};
ghost use Rattle.table_model.specs.Facts.{IsTable, IsTableSoFar, is_call};
ghost use Rattle.table_model.specs.Grammar.{class_after, classes_after, entries_of, json_of, table_in, table_of};
ghost use Rattle.table_model.specs.Rules.{Entry, args_limit, largest_args, path_names, place_of};
ghost use Rattle.table_model.specs.Sizes.{longest_array};

/// The built-in table is that of its file.
#[tactic(auto, using(crate::proofs::BuiltIn::file_is_table))]
pub fn built_in_file_is_read()
    ensures { table_in built_in_file ≡ Ok built_in_table }
{}

/// A class's properties have the handles from 4 on, in their order.
pub fn handles_ascend_from_four()
    ensures { (class : Class) (n : ℕ) → prop_at class (n + 4) ≡ slice_get class.props n }
{}

/// The facts of a table hold of every table that is accepted.
#[tactic(auto, using(crate::proofs::Tables::table_is))]
pub fn accepted_tables_keep_their_rules()
    ensures table { (bytes : List ℕ) (table : Table) → table_in bytes ≡ Ok table
        → (entries : List Entry) × (table ≡ table_of entries) × IsTable entries }
    ensures entries { (bytes : List ℕ) (entries : List Entry) → entries_of bytes ≡ Ok entries
        → IsTable entries }
{}

/// They hold of the classes so far, of which there are none at first, and of these with each
/// accepted class behind them.
#[tactic(auto, using(crate::proofs::Classes::none_so_far))]
pub fn accepted_classes_keep_the_rules()
    ensures none { IsTableSoFar [] }
    ensures one_more { (k : ℕ) (before : List Entry) (d : Data) (entry : Entry)
        → IsTableSoFar before → length before < class_limit → class_after k before d ≡ Ok entry
        → IsTableSoFar (before ++ entry ∷ []) }
{}

/// No arguments take more bits than the largest ones of their kinds, nor a table's call more than
/// its limit.
#[tactic(auto, using(crate::proofs::Sizes::args_most, crate::proofs::Sizes::call_most))]
pub fn largest_arguments()
    ensures largest { (kinds : List Kind) (args : List Arg) → IsTrue (args_fit kinds args)
        → length (args_bits kinds args) ≤ largest_args kinds }
    ensures call { (call : Call) (args : List Arg) → IsTrue (is_call call)
        → IsTrue (args_fit call.args args)
        → length (args_bits call.args args) ≤ args_limit call.reliable }
{}

/// The first refusal counts: classes behind accepted ones are judged after those, and what stands
/// behind a refused class changes nothing.
#[tactic(auto, using(crate::proofs::Refusals::after_accepted, crate::proofs::Refusals::after_refused))]
pub fn first_refusal_counts()
    ensures accepted { (before entries : List Entry) (ds more : List Data)
        → classes_after before ds ≡ Ok entries
        → classes_after before (ds ++ more) ≡ classes_after entries more }
    ensures refused { (before : List Entry) (ds more : List Data) (refusal : Refusal)
        → classes_after before ds ≡ Err refusal → classes_after before (ds ++ more) ≡ Err refusal }
{}

/// In a table a name leads to the class that has it and to no other, and a path and a guid are
/// each one class's at most.
#[tactic(auto, using(crate::proofs::Tables::table_paths, crate::proofs::ByGuid::table_guids))]
pub fn names_find_their_class()
    ensures name { (entries : List Entry) (name : List ℕ) (n : ℕ) → IsTable entries
        → (place_of entries name ≡ Some n)
        ↔ ((e : Entry) × (slice_get entries n ≡ Some e) × (e.class.name ≡ name)) }
    ensures path { (entries : List Entry) (m n : ℕ) (d e : Entry) → IsTable entries
        → slice_get entries m ≡ Some d → slice_get entries n ≡ Some e
        → path_names d.class.path ≡ path_names e.class.path → m ≡ n }
    ensures guid { (entries : List Entry) (m n : ℕ) (d e : Entry) → IsTable entries
        → slice_get entries m ≡ Some d → slice_get entries n ≡ Some e
        → class_guid d.class ≡ class_guid e.class → m ≡ n }
{}

/// A class's guid is one of 3, 5 and on, up to 2,049, and so it is no actor's, which are even.
#[tactic(auto, using(crate::proofs::ByGuid::guid_in_range))]
pub fn class_guids_are_odd()
    ensures { (entries : List Entry) (n : ℕ) (e : Entry) → IsTable entries
        → slice_get entries n ≡ Some e
        → (i : ℕ) × (i < segment_limit) × (class_guid e.class ≡ 2 * i + 3) }
{}

/// No array of a file, at whatever depth, has more elements than the file has bytes.
#[tactic(auto, using(crate::proofs::Arrays::json_within))]
pub fn arrays_are_no_longer_than_the_file()
    ensures { (bytes : List ℕ) (d : Data) → json_of bytes ≡ Some d
        → longest_array d ≤ length bytes }
{}
