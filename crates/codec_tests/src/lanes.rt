//! Worked rows.

use ffv1_lanes::{blend_row, residual_row, same_row};
use std::process::Abort;

// The residuals of so many samples 0 with the prediction 255.
fn gives_ones(rt: &impl Abort, len: usize) {
    let mut residuals = [99; 65];
    assert!(rt; len <= 65);
    residual_row(&[0; 65][..len], &[255; 65][..len], &mut residuals[..len]);
    for x in 0..65 {
        assert_eq!(rt; residuals[x], if x < len { 1 } else { 99 });
    }
}

#[test]
fn worked_rows(rt: HostRuntime) {
    let mut residuals = [0; 3];
    residual_row(&[0, 255, 10], &[255, 0, 10], &mut residuals);
    assert_eq!(rt; residuals, [1, -1, 0]);
    for len in [0, 1, 31, 32, 33, 65] {
        gives_ones(&rt, len);
    }
}

// So many samples 16 blended with as many 235 at a weight.
fn gives_mean(rt: &impl Abort, len: usize, weight: u8, mean: u8) {
    let mut blended = [99; 65];
    assert!(rt; len <= 65);
    blend_row(
        &[16; 65][..len],
        &[235; 65][..len],
        weight,
        &mut blended[..len],
    );
    for x in 0..65 {
        assert_eq!(rt; blended[x], if x < len { mean } else { 99 });
    }
}

#[test]
fn blended_rows(rt: HostRuntime) {
    for len in [0, 1, 31, 32, 33, 65] {
        for (weight, mean) in [(0, 16), (64, 71), (128, 126), (192, 180)] {
            gives_mean(&rt, len, weight, mean);
        }
    }
    let mut blended = [0; 3];
    blend_row(&[0, 255, 255], &[255, 0, 255], 255, &mut blended);
    assert_eq!(rt; blended, [254, 1, 255]);
}

#[test]
fn same_rows(rt: HostRuntime) {
    for len in [0, 1, 31, 32, 33, 65] {
        let row = [7; 65];
        assert!(rt; same_row(&row[..len], &[7; 65][..len]));
        for place in [0, 30, 31, 32, 64] {
            let mut other = [7; 65];
            other[place] = 8;
            assert_eq!(rt; same_row(&row[..len], &other[..len]), len <= place);
        }
    }
}
