//! Worked neighbours.

use ffv1_predict::{Left, Near};

fn seen(l: u8, t: u8, tl: u8) -> Near {
    Near {
        tt: 0,
        tl,
        t,
        tr: 0,
        ll: 0,
        l,
    }
}

#[test]
fn worked_predictions(rt: HostRuntime) {
    assert_eq!(rt; seen(10, 20, 15).predicted(), 15);
    assert_eq!(rt; seen(10, 20, 30).predicted(), 10);
    assert_eq!(rt; seen(200, 250, 100).predicted(), 250);
    let first = Left::start(&[0; 2], &[0; 2]).near(&[0; 2], &[0; 2], 0);
    assert_eq!(rt; first.predicted(), 0);
    assert_eq!(rt; first.restored(-1, 255), 1);
    assert_eq!(rt; first.coded(-1, 128), -128);
}

#[test]
fn worked_contexts(rt: HostRuntime) {
    let mut tables = [[0; 256]; 5];
    tables[0][255] = -3;
    tables[1][2] = 5;
    tables[2][0] = 100;
    tables[4][1] = -1000;
    let near = Near {
        tt: 9,
        tl: 10,
        t: 8,
        tr: 8,
        ll: 9,
        l: 9,
    };
    assert_eq!(rt; near.context(&tables), -898);
}
