// What is made, against values worked by hand.

use fv_outside::Tape;
use fv_top_make::{Noise, NoiseTape, text_of};
use std::test::Fail;

#[test]
fn a_text_is_two_lines(rt: HostRuntime) -> Result<(), Fail> {
    let text = text_of(rt.alloc(), 64)?;
    assert_eq!(rt;
        text.as_slice(),
        b"v(i) = + ~ (@(i*37+1) : *(i+3) : /(8));\nprocess = _ <: par(i,64,v(i)) :> _;\n".as_slice()
    );
    Ok(())
}

// The frames of a tape's noise that are heard two at a time.
fn two_by_two(noise: &mut Noise, frames: &mut [i32; 4]) -> bool {
    let mut tape = NoiseTape {
        left: 4,
        most: 2,
        outputs: 1,
    };
    tape.begin(noise).is_ok()
        && tape.hear(noise, 2, &mut frames[..2]).is_ok()
        && tape.hear(noise, 2, &mut frames[2..]).is_ok()
        && tape.left == 0
}

#[test]
fn the_noise_of_one_voice(rt: HostRuntime) -> Result<(), Fail> {
    let mut noise = Noise { state: 1, sum: 0 };
    let mut frames = [0; 4];
    assert!(rt; two_by_two(&mut noise, &mut frames));
    assert_eq!(rt; &frames[..3], [16838, -27010, 10113].as_slice());
    assert_eq!(rt; noise.sum, 0);
    Ok(())
}

#[test]
fn sums_wrap(rt: HostRuntime) -> Result<(), Fail> {
    let mut noise = Noise { state: 1, sum: 0 };
    let mut tape = NoiseTape {
        left: 9,
        most: 3,
        outputs: 1,
    };
    assert!(rt; tape.say(&mut noise, 3, &[16838, -27010, 16427]).is_ok());
    assert_eq!(rt; noise.sum, 6255);
    assert!(rt; tape.say(&mut noise, 2, &[i32::MAX, i32::MAX]).is_ok());
    assert_eq!(rt; noise.sum, 6253);
    assert!(rt; tape.say(&mut noise, 0, &[]).is_ok());
    assert_eq!(rt; (noise.sum, noise.state), (6253, 1));
    Ok(())
}
