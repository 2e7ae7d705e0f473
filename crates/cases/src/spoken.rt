// Group 10: what the desk says of the example with a few numbers changed, in full sentences.
ghost use Rattle.std.specs.Prelude.{◌≤◌};

use crate::answers::says;
use crate::example::example;
use crate::tally::{Seen, judged};
use endian_writing::put16;

pub(crate) const SENTENCES: usize = 22;

// Model 2's quality: at 8,000 its utility is 6,200, at 7,500 it is 5,700, at 7,000 and 6,999 it is 5,200 and 5,199, where model 1's is 5,200.
const SECOND_QUALITY: usize = 89;

// What it is changed to. Where no token costs anything, model 1's utility is 7,000, and so is model 2's at 8,500 with 50 ms and at 9,000 with 100.
fn second_quality(which: usize) -> u16 {
    match which {
        0 => 7_500,
        1..=4 => 6_999,
        16 => 7_000,
        17 => 8_500,
        18 => 9_000,
        20 => 65_535,
        _ => 8_000,
    }
}

// Its latency.
const SECOND_LATENCY: usize = 94;

// The same 50 ms, or 100.
fn second_latency(which: usize) -> u16 {
    if which == 18 { 100 } else { 50 }
}

// Another change: model 1's ceiling; its switch, with its latency's byte after it; the latency limit; the budget; the minimum quality; the
// confidence; the capabilities, providers and regions; the value; the input tokens; the requested model; model 2's id; model 1's provider. The
// rest change the example's sequence to itself.
fn place_of(which: usize) -> usize
    ensures { result ≤ 200 }
{
    match which {
        1 => 44,
        2 | 5 => 46,
        3 => 175,
        4 | 10 => 161,
        6 => 173,
        7 => 171,
        11 => 179,
        12 => 187,
        13 => 195,
        14 | 15 => 153,
        17 | 18 => 145,
        19 => 141,
        20 => 83,
        21 => 40,
        _ => 133,
    }
}

// What stands there then.
fn value_of(which: usize) -> u16 {
    match which {
        1 => 900,
        2 | 5 => 25_600,
        3 => 60,
        4 => 1_000,
        6 => 9_500,
        7 => 1_999,
        10 => 299,
        11 => 3,
        12 => 65_534,
        13 => 2,
        14 => 2_000,
        15 => 3_500,
        17 | 18 => 0,
        19 => 9,
        20 | 21 => 65_535,
        _ => 42,
    }
}

// A last one: the output tokens; the upper half of model 2's id. The rest change the sequence's next two bytes to themselves.
fn last_place(which: usize) -> usize
    ensures { result ≤ 200 }
{
    match which {
        17 | 18 => 149,
        20 => 85,
        _ => 135,
    }
}

// What stands there then.
fn last_value(which: usize) -> u16 {
    if which == 20 { 65_535 } else { 0 }
}

// About model 1, where a change of the second or of the request leaves one lever or more. 0: equal utility at higher cost loses, so that the
// quality must come above 9,500, the latency below 50 ms, the cost below 1,300.
fn is_lever(which: usize, input: &[u8]) -> bool {
    match which {
        0 => says(
            input,
            1,
            b"Chosen: model 2, at a cost of 300 microunits, with a utility of 5700 microunits.\n\
                Model 1 is outranked by model 2: its utility of 5200 microunits is below 5700.\n\
                Price alone: it must fall by 27.9 percent or more; exactly, by 27.8667 percent, to 72.1333 percent of today's, where the request costs 1299 microunits.\n\
                Quality alone: 9000 basis points today; it must rise to at least 9501.\n\
                Latency alone: 100 ms today; it must fall to at most 49 ms.\n",
        ),
        1 => says(
            input,
            1,
            b"Chosen: model 2, at a cost of 300 microunits, with a utility of 5199 microunits.\n\
                Model 1 is rejected: the request's risk of 1000 basis points is above its ceiling of 900.\n\
                Price alone: no price, not even 0, would make it the choice.\n\
                Risk ceiling alone: 900 basis points today; it must rise to at least 1000.\n",
        ),
        2 => says(
            input,
            1,
            b"Chosen: model 2, at a cost of 300 microunits, with a utility of 5199 microunits.\n\
                Model 1 is switched off.\n\
                Price alone: not searched, since the model is switched off.\n\
                Switched on, it would be chosen.\n",
        ),
        3 => says(
            input,
            1,
            b"Chosen: model 2, at a cost of 300 microunits, with a utility of 5199 microunits.\n\
                Model 1 is rejected: its latency of 100 ms is above the limit of 60 ms.\n\
                Price alone: no price, not even 0, would make it the choice.\n\
                Latency alone: 100 ms today; it must fall to at most 60 ms.\n",
        ),
        _ => says(
            input,
            1,
            b"Chosen: model 2, at a cost of 300 microunits, with a utility of 5199 microunits.\n\
                Model 1 is over budget: it costs 1800 microunits, 800 more than the budget of 1000.\n\
                Price alone: it must fall by 44.5 percent or more; exactly, by 44.4667 percent, to 55.5333 percent of today's, where the request costs 1000 microunits.\n",
        ),
    }
}

// 5 and 7: no search. 6: one lever, where nothing is chosen. 8 and 9 are about model 2 and an id that isn't listed.
fn is_plain(which: usize, input: &[u8]) -> bool {
    match which {
        5 => says(
            input,
            1,
            b"Chosen: model 2, at a cost of 300 microunits, with a utility of 6200 microunits.\n\
                Model 1 is switched off.\n\
                Price alone: not searched, since the model is switched off.\n\
                Switched on, it would still not be chosen.\n",
        ),
        6 => says(
            input,
            1,
            b"Nothing is chosen: no model is eligible, with reason 103.\n\
                Model 1 is rejected: its quality of 9000 basis points is below the 9500 required.\n\
                Price alone: no price, not even 0, would make it the choice.\n\
                Quality alone: 9000 basis points today; it must rise to at least 9500.\n",
        ),
        7 => says(
            input,
            1,
            b"Nothing is chosen: the request is stopped, since its confidence of 1999 basis points is below the policy's minimum of 2000.\n\
                No change to a model would help.\n\
                Price alone: not searched, since the request is stopped.\n",
        ),
        8 => says(
            input,
            2,
            b"Chosen: model 2, at a cost of 300 microunits, with a utility of 6200 microunits.\n\
                Model 2 is chosen already.\n\
                Price alone: not searched, since the model is chosen already.\n",
        ),
        _ => says(
            input,
            3,
            b"refused 5\n\
                Model 3 is not listed.\n",
        ),
    }
}

// Why a model is rejected. 12: the mask without provider 0. 14: -1,200 is 1,800 less 200, 1,800 and 1,000; without a price it is 600, which is
// model 2's utility, at a lower cost. 15: 0 is 3,150 less 350, 1,800 and 1,000; a cost of 150 leaves 1,650, which is model 2's.
fn is_rejected(which: usize, input: &[u8]) -> bool {
    match which {
        10 => says(
            input,
            1,
            b"Nothing is chosen: no model is eligible, with reason 108.\n\
                Model 1 is over budget: it costs 1800 microunits, 1501 more than the budget of 299.\n\
                Price alone: it must fall by 83.4 percent or more; exactly, by 83.4000 percent, to 16.6000 percent of today's, where the request costs 299 microunits.\n",
        ),
        11 => says(
            input,
            2,
            b"Chosen: model 1, at a cost of 1800 microunits, with a utility of 5200 microunits.\n\
                Model 2 is rejected: its capabilities, mask 1, lack some of those required, mask 3.\n\
                Price alone: no price, not even 0, would make it the choice.\n\
                Nor would its quality, latency or risk ceiling alone.\n",
        ),
        12 => says(
            input,
            1,
            b"Chosen: model 2, at a cost of 300 microunits, with a utility of 6200 microunits.\n\
                Model 1 is rejected: its provider 0 is not among those allowed, mask 18446744073709551614.\n\
                Price alone: no price, not even 0, would make it the choice.\n\
                Nor would its quality, latency or risk ceiling alone.\n",
        ),
        13 => says(
            input,
            1,
            b"Nothing is chosen: no model is eligible, with reason 107.\n\
                Model 1 is rejected: its regions, mask 1, have none of those required, mask 2.\n\
                Price alone: no price, not even 0, would make it the choice.\n\
                Nor would its quality, latency or risk ceiling alone.\n",
        ),
        14 => says(
            input,
            1,
            b"Chosen: model 2, at a cost of 300 microunits, with a utility of 600 microunits.\n\
                Model 1 is rejected: its utility of -1200 microunits is not above 0.\n\
                Price alone: it must fall by 100.0 percent or more; exactly, by 100.0000 percent, to 0.0000 percent of today's, where the request costs 0 microunits.\n",
        ),
        _ => says(
            input,
            1,
            b"Chosen: model 2, at a cost of 300 microunits, with a utility of 1650 microunits.\n\
                Model 1 is rejected: its utility of 0 microunits is not above 0.\n\
                Price alone: it must fall by 91.7 percent or more; exactly, by 91.6667 percent, to 8.3333 percent of today's, where the request costs 150 microunits.\n",
        ),
    }
}

// By which key another model is ahead. 16: a cost of 1,799 makes it the choice. 17 and 18: model 1 is chosen.
fn is_outranked(which: usize, input: &[u8]) -> bool {
    match which {
        16 => says(
            input,
            1,
            b"Chosen: model 2, at a cost of 300 microunits, with a utility of 5200 microunits.\n\
                Model 1 is outranked by model 2: at the same utility, its cost of 1800 microunits is above 300.\n\
                Price alone: it must fall by 0.1 percent or more; exactly, by 0.0667 percent, to 99.9333 percent of today's, where the request costs 1799 microunits.\n\
                Quality alone: 9000 basis points today; it must rise to at least 9001.\n\
                Latency alone: 100 ms today; it must fall to at most 99 ms.\n",
        ),
        17 => says(
            input,
            2,
            b"Chosen: model 1, at a cost of 0 microunits, with a utility of 7000 microunits.\n\
                Model 2 is outranked by model 1: at the same utility and cost, its quality of 8500 basis points is below 9000.\n\
                Price alone: no price, not even 0, would make it the choice.\n\
                Quality alone: 8500 basis points today; it must rise to at least 8501.\n\
                Latency alone: 50 ms today; it must fall to at most 49 ms.\n",
        ),
        _ => says(
            input,
            2,
            b"Chosen: model 1, at a cost of 0 microunits, with a utility of 7000 microunits.\n\
                Model 2 is outranked by model 1: at the same utility, cost and quality, the lower id goes first.\n\
                Price alone: no price, not even 0, would make it the choice.\n\
                Quality alone: 9000 basis points today; it must rise to at least 9001.\n\
                Latency alone: 100 ms today; it must fall to at most 99 ms.\n",
        ),
    }
}

// 19: the requested model isn't listed. 20 and 21: the highest id, quality and provider that an input can hold.
fn is_remarked(which: usize, input: &[u8]) -> bool {
    match which {
        19 => says(
            input,
            1,
            b"Chosen: model 2, at a cost of 300 microunits, with a utility of 6200 microunits.\n\
                The requested model 9 is not listed.\n\
                Model 1 is outranked by model 2: its utility of 5200 microunits is below 6200.\n\
                Price alone: it must fall by 55.7 percent or more; exactly, by 55.6667 percent, to 44.3333 percent of today's, where the request costs 798 microunits.\n",
        ),
        20 => says(
            input,
            1,
            b"refused 14\n\
                Model 4294967295 has a quality of 65535 basis points; at most 10000 are allowed.\n",
        ),
        _ => says(
            input,
            1,
            b"refused 13\n\
                Model 1 has provider 65535; providers go from 0 to 63.\n",
        ),
    }
}

// What is owed.
fn is_said(which: usize, input: &[u8]) -> bool {
    match which {
        0..=4 => is_lever(which, input),
        5..=9 => is_plain(which, input),
        10..=15 => is_rejected(which, input),
        16..=18 => is_outranked(which, input),
        _ => is_remarked(which, input),
    }
}

// One such case.
pub(crate) fn sentence(which: usize) -> Seen {
    let mut input = example();
    put16(&mut input, SECOND_QUALITY, second_quality(which));
    put16(&mut input, SECOND_LATENCY, second_latency(which));
    put16(&mut input, place_of(which), value_of(which));
    put16(&mut input, last_place(which), last_value(which));
    judged(is_said(which, &input))
}
