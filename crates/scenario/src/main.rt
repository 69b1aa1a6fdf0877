// Runs the marked examples and a store's whole life through `store`, and reports every answer.
#![tactic(auto)]

mod examples;
mod life;
mod report;

fn main(rt: HostRuntime) {
    let mut image = [0u8; 21248];
    examples::m3(&rt, &mut image);
    // The last slot of card 1's last block.
    report::slot(
        &rt,
        [
            image[5279],
            image[5280],
            image[5281],
            image[5282],
            image[5283],
        ],
    );
    examples::m4(&rt, &mut image);
    examples::m5_stored(&rt, &mut image);
    // The first slot of card 0's first block.
    report::slot(&rt, [image[33], image[34], image[35], image[36], image[37]]);
    examples::m5_committed(&rt, &mut image);
    report::slot(&rt, [image[33], image[34], image[35], image[36], image[37]]);
    examples::m6(&rt, &mut image);
    examples::m7(&rt, &mut image);
    examples::m8(&rt, &mut image);
    examples::m9(&rt, &mut image);
    examples::m10(&rt, &mut image);
    report::life_title(&rt);
    life::fill(&rt, &mut image);
    life::change_mind(&rt, &mut image);
    life::fail_one(&rt, &mut image);
    life::spread(&rt, &mut image);
    life::fit_again(&rt, &mut image);
    life::rejoin(&rt, &mut image);
    life::stop(&rt, &mut image);
}
