use super::*;
use std::test::*;

#[test]
fn rows_of_the_table(rt: HostRuntime) {
    for row in TABLE {
        let want = if row.read { Some(row.kind) } else { None };
        assert!(rt; kind_in(row.parent, row.id) == want, "{:X}", row.id);
        if row.parent == SEGMENT {
            assert!(rt; TOP_LEVEL.contains(&row.id), "{:X}", row.id);
        }
    }
    assert!(rt; kind_in(SEGMENT, TIMESTAMP).is_none());
    assert!(rt; kind_in(CLUSTER, BLOCK).is_none());
    assert!(rt; may_be_unknown(CLUSTER));
    assert!(rt; !may_be_unknown(BLOCK_GROUP));
}
