//! Tables by which no difference counts. RFC 9043 section 3.4.
ghost use Rattle.std.specs.Prelude.{◌≡◌, ℕ, ◌<◌, ◌≤◌, slice_index_or, pos, true, IsTrue};
ghost use Rattle.ffv1_predict.specs.Near.{IsFlat, AreNear};

/// Whether only the near neighbours count: the tables of the two far ones have no entry but 0.
pub fn are_near(tables: &[[i16; 256]; 5]) -> bool
    ensures { IsTrue result → AreNear tables.now }
{
    let [_, _, _, fourth, fifth] = tables;
    is_flat(fourth) && is_flat(fifth)
}

fn is_flat(table: &[i16; 256]) -> bool
    ensures { IsTrue result → IsFlat table.now }
{
    for entry in table {
        if *entry != 0 {
            return false;
        }
    }
    true
}
