// What hosts are given, made of each call's Result. An enum cannot cross the boundary to C, so an answer is a struct of numbers: the number due, 0 where
// none is, and counts, total, excess, edition or length, which are 0 in a refusal.
#![tactic(auto)]

ghost use Rattle.std.specs.Prelude.{◌≡◌};
ghost use Rattle.answers.specs.Answers.{patch_answer_of, price_answer_of, judge_answer_of, read_answer_of, find_answer_of, sizes_answer_of, convert_answer_of};

use codes::Refusal;
use converter::Converted;
use finder::{Counts, Places};
use polygon::Polygon;
use triangulator::Patch;

// A patch where the number is 0 and there are triangles, 'none' where both are 0.
#[repr(C)]
#[derive(Clone, Copy, Default)]
pub struct PatchAnswer {
    pub number: u32,
    pub triangles: usize,
    pub total: u64,
}

// The least total where the number is 0 and its patch has triangles, 'none' where both are 0. A struct of its own, with the fields of `PatchAnswer`: the
// header for C, hosts/patch_box.h, has a type for each call.
#[repr(C)]
#[derive(Clone, Copy, Default)]
pub struct PriceAnswer {
    pub number: u32,
    pub triangles: usize,
    pub total: u64,
}

// Accepted where the number is 0.
#[repr(C)]
#[derive(Clone, Copy, Default)]
pub struct JudgeAnswer {
    pub number: u32,
    pub excess: u64,
}

#[repr(C)]
#[derive(Clone, Copy, Default)]
pub struct ReadAnswer {
    pub number: u32,
    pub vertices: usize,
}

#[repr(C)]
#[derive(Clone, Copy, Default)]
pub struct FindAnswer {
    pub number: u32,
    pub candidates: usize,
    pub rows: usize,
}

// How many places each lent table needs.
#[repr(C)]
#[derive(Clone, Copy, Default)]
pub struct SizesAnswer {
    pub number: u32,
    pub triangles: usize,
    pub candidates: usize,
    pub weights: usize,
    pub rows: usize,
    pub work: usize,
}

// The edition and the length of the converted file.
#[repr(C)]
#[derive(Clone, Copy, Default)]
pub struct ConvertAnswer {
    pub number: u32,
    pub edition: u32,
    pub length: usize,
}

impl From<Result<Option<Patch>, Refusal>> for PatchAnswer {
    ghost from_gives = { λ outcome answer. answer ≡ patch_answer_of outcome };

    fn from(outcome: Result<Option<Patch>, Refusal>) -> PatchAnswer {
        PatchAnswer {
            number: codes::number_of(&outcome),
            triangles: triangulator::triangles_of(&outcome),
            total: triangulator::total_of(&outcome),
        }
    }
}

impl From<Result<Option<Patch>, Refusal>> for PriceAnswer {
    ghost from_gives = { λ quote answer. answer ≡ price_answer_of quote };

    fn from(quote: Result<Option<Patch>, Refusal>) -> PriceAnswer {
        PriceAnswer {
            number: codes::number_of(&quote),
            triangles: triangulator::triangles_of(&quote),
            total: triangulator::total_of(&quote),
        }
    }
}

impl From<Result<u64, Refusal>> for JudgeAnswer {
    ghost from_gives = { λ judgement answer. answer ≡ judge_answer_of judgement };

    fn from(judgement: Result<u64, Refusal>) -> JudgeAnswer {
        match judgement {
            Ok(excess) => JudgeAnswer { number: 0, excess },
            Err(refusal) => JudgeAnswer {
                number: refusal.number,
                ..JudgeAnswer::default()
            },
        }
    }
}

impl From<Result<Polygon, Refusal>> for ReadAnswer {
    ghost from_gives = { λ reading answer. answer ≡ read_answer_of reading };

    fn from(reading: Result<Polygon, Refusal>) -> ReadAnswer {
        match reading {
            Ok(polygon) => ReadAnswer {
                number: 0,
                vertices: polygon.n,
            },
            Err(refusal) => ReadAnswer {
                number: refusal.number,
                ..ReadAnswer::default()
            },
        }
    }
}

impl From<Result<Counts, Refusal>> for FindAnswer {
    ghost from_gives = { λ found answer. answer ≡ find_answer_of found };

    fn from(found: Result<Counts, Refusal>) -> FindAnswer {
        match found {
            Ok(lists) => FindAnswer {
                number: 0,
                candidates: lists.candidates,
                rows: lists.rows,
            },
            Err(refusal) => FindAnswer {
                number: refusal.number,
                ..FindAnswer::default()
            },
        }
    }
}

impl From<Result<Places, Refusal>> for SizesAnswer {
    ghost from_gives = { λ sizes answer. answer ≡ sizes_answer_of sizes };

    fn from(sizes: Result<Places, Refusal>) -> SizesAnswer {
        match sizes {
            Ok(places) => SizesAnswer {
                number: 0,
                triangles: places.triangles,
                candidates: places.candidates,
                weights: places.candidates,
                rows: places.rows,
                work: places.candidates,
            },
            Err(refusal) => SizesAnswer {
                number: refusal.number,
                ..SizesAnswer::default()
            },
        }
    }
}

impl From<Result<Converted, Refusal>> for ConvertAnswer {
    ghost from_gives = { λ conversion answer. answer ≡ convert_answer_of conversion };

    fn from(conversion: Result<Converted, Refusal>) -> ConvertAnswer {
        match conversion {
            Ok(converted) => ConvertAnswer {
                number: 0,
                edition: converted.edition.number(),
                length: converted.length,
            },
            Err(refusal) => ConvertAnswer {
                number: refusal.number,
                ..ConvertAnswer::default()
            },
        }
    }
}
