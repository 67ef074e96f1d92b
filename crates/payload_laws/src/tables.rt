// What an accepted class table gives to payloads.
//
// Classes of a table have limits, their paths can be exported, what an open exports is learnt
// without a clash, and then the reader's names name the class.
ghost use Rattle.std.specs.Prelude.{◌≡◌, ◌<◌, ◌≤◌, ◌^◌, ℕ, List, Bool, Some, filter, length};
ghost use Rattle.std.specs.List.{fold};
ghost use Rattle.protocol_model.specs.Limits.{depth_limit, segment_limit};
ghost use Rattle.protocol_model.specs.Value.{Class, Segment, class_guid};
ghost use Rattle.table_model.specs.Rules.{Entry, segments_of};
ghost use Rattle.table_model.specs.Grammar.{table_of};
ghost use Rattle.table_model.specs.Facts.{IsTable};
ghost use Rattle.connection_model.specs.Names.{names_of, names_with, class_named};
ghost use Rattle.connection_model.specs.Feed.{Past};
ghost use Rattle.connection_model.specs.Copies.{delivered_of};
ghost use Rattle.payload_laws.specs.Accepted.{StandsIn};
ghost use Rattle.payload_laws.specs.Delivered.{ExportsStand, ExportsKnown};
ghost use Rattle.payload_laws.specs.Learning.{StandAmong, AreAmong, KnowsAll, MayLearn};
ghost use Rattle.payload_laws.specs.Limits.{HasLimits, AreSegments};
ghost use Rattle.payload_laws.specs.Passing.{AreLearnt};

/// Each class of a table has limits, a path of at most eight segments that can be exported, and a
/// guid of 32 bits.
pub fn class_has_limits()
    ensures limits { (entries : List Entry) (class : Class)
        → IsTable entries → StandsIn entries class → HasLimits class }
    ensures path { (entries : List Entry) (class : Class)
        → IsTable entries → StandsIn entries class → AreSegments class.path }
    ensures few { (entries : List Entry) (class : Class)
        → IsTable entries → StandsIn entries class → length class.path ≤ depth_limit }
    ensures guid { (entries : List Entry) (class : Class)
        → IsTable entries → StandsIn entries class → class_guid class < 2 ^ 32 }
{}

/// A class that some names name, whichever names they are, has limits.
pub fn named_class_has_limits()
    ensures { (entries : List Entry) (names : List Segment) (guid : ℕ) (class : Class)
        → IsTable entries → class_named (table_of entries) names guid ≡ Some class
        → HasLimits class }
{}

/// Where a client may learn the class from an open (`MayLearn`), each segment that the open exports
/// is learnt; then the client's names are the table's again, and hold the whole path.
pub fn exports_are_learnt()
    ensures learnt { (entries : List Entry) (names : List Segment) (is_exported : Segment → Bool)
        (class : Class) → MayLearn entries names is_exported class
        → AreLearnt names (filter is_exported class.path) }
    ensures among { (entries : List Entry) (names : List Segment) (is_exported : Segment → Bool)
        (class : Class) → MayLearn entries names is_exported class
        → AreAmong (segments_of entries) (fold names_with names (filter is_exported class.path)) }
    ensures known { (entries : List Entry) (names : List Segment) (is_exported : Segment → Bool)
        (class : Class) → MayLearn entries names is_exported class
        → KnowsAll (fold names_with names (filter is_exported class.path)) class.path }
{}

/// Names that hold a class's path name the class under its guid.
pub fn path_names_the_class()
    ensures { (entries : List Entry) (names : List Segment) (class : Class)
        → IsTable entries → StandsIn entries class → KnowsAll names class.path
        → class_named (table_of entries) names (class_guid class) ≡ Some class }
{}

/// A client whose names are all the table's has at most 1,024 names.
pub fn names_are_few()
    ensures { (entries : List Entry) (past : Past) → IsTable entries
        → AreAmong (segments_of entries) (names_of past)
        → length (names_of past) ≤ segment_limit }
{}

/// What an open exports of a class's path are segments of the table.
pub fn exports_stand()
    ensures { (entries : List Entry) (class : Class) (is_exported : Segment → Bool)
        → StandsIn entries class
        → StandAmong (segments_of entries) (filter is_exported class.path) }
{}

/// A client whose opens exported segments of the table knows each of them, and nothing else.
pub fn names_are_the_exports()
    ensures among { (entries : List Entry) (past : Past) → IsTable entries
        → ExportsStand (segments_of entries) (delivered_of past)
        → AreAmong (segments_of entries) (names_of past) }
    ensures known { (entries : List Entry) (past : Past) → IsTable entries
        → ExportsStand (segments_of entries) (delivered_of past)
        → ExportsKnown (names_of past) (delivered_of past) }
{}
