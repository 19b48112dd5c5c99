//! The table and the lists beside it are those of the standard.

ghost use Rattle.std.specs.Prelude.{◌≡◌};
ghost use Rattle.mkv_elements.specs.declared.TheConstants.{TOP_LEVEL};
ghost use Rattle.mkv_elements.specs.declared.table.TheConstants.{TABLE, MAY_BE_UNKNOWN};
ghost use Rattle.mkv_elements.specs.Names.{AreNamed};
ghost use Rattle.mkv_elements.specs.Rows.{rows, beside_clusters, unknown_sized};

/// The elements are those of RFC 9559 and RFC 8794: the id of each name, each row of the table, the
/// children of the Segment, and those whose size may be unknown. Which elements a reader of clips looks into
/// is this project's own choice.
pub fn elements_are_standard()
    ensures names { AreNamed }
    ensures rows { TABLE ≡ rows }
    ensures beside { TOP_LEVEL ≡ beside_clusters }
    ensures unknown { MAY_BE_UNKNOWN ≡ unknown_sized }
{}
