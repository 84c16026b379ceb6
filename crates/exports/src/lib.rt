// The calls that hosts in C and Rust link: each makes one call of the library, and gives the host its numbers. Names and parameter lists are those of
// hosts/patch_box.h: a direct job comes as its four parts, and each call on a rim file but the conversion stands twice, with the limit that the host asks
// for and with the largest, since C has no parameter with a default.
#![tactic(auto)]

ghost use Rattle.std.specs.Prelude.{◌≡◌};
ghost use Rattle.jobs.specs.Job.{job_of};
ghost use Rattle.terms.specs.Limits.{max_vertices};
ghost use Rattle.reader.specs.Reading.{reading_of};
ghost use Rattle.converter.specs.Call.{convert_call};
ghost use Rattle.pricing.specs.Quote.{priced};
ghost use Rattle.pricing.specs.Patch.{patched_at};
ghost use Rattle.judge.specs.Call.{judged};
ghost use Rattle.pipeline.specs.Finding.{find_file};
ghost use Rattle.pipeline.specs.Patching.{tables, patch_file};
ghost use Rattle.pipeline.specs.Sizes.{sizes_file};
ghost use Rattle.answers.specs.Answers.{read_answer_of, sizes_answer_of};
ghost use Rattle.exports.specs.Calls.{rim_patch, rim_patch_of, job_price, job_price_of, job_patch, job_patch_of, job_judgement, job_judgement_of};
ghost use Rattle.exports.specs.Calls.{rim_lists, rim_lists_of, file_conversion, file_conversion_of};

use answers::{
    ConvertAnswer, FindAnswer, JudgeAnswer, PatchAnswer, PriceAnswer, ReadAnswer, SizesAnswer,
};
use jobs::Job;

// The one call over the three stages.
#[unsafe(no_mangle)]
pub extern "C" fn patch_box_rim_within(
    limit: usize,
    file: &[u8],
    triangles: &mut [u16],
    candidates: &mut [[u8; 3]],
    weights: &mut [u32],
    rows: &mut [[u32; 3]],
    work: &mut [u64],
) -> PatchAnswer
    ensures { rim_patch result (tables triangles.new candidates.new weights.new rows.new work.new)
        ≡ rim_patch_of (patch_file limit file.now (tables triangles.old candidates.old weights.old
        rows.old work.old)) }
{
    pipeline::patch_file(limit, file, triangles, candidates, weights, rows, work).into()
}

#[unsafe(no_mangle)]
pub extern "C" fn patch_box_rim(
    file: &[u8],
    triangles: &mut [u16],
    candidates: &mut [[u8; 3]],
    weights: &mut [u32],
    rows: &mut [[u32; 3]],
    work: &mut [u64],
) -> PatchAnswer
    ensures { rim_patch result (tables triangles.new candidates.new weights.new rows.new work.new)
        ≡ rim_patch_of (patch_file max_vertices file.now (tables triangles.old candidates.old weights.old
        rows.old work.old)) }
{
    patch_box_rim_within(
        terms::MAX_VERTICES,
        file,
        triangles,
        candidates,
        weights,
        rows,
        work,
    )
}

// The tiler alone, for a direct job: the least total.
#[unsafe(no_mangle)]
pub extern "C" fn patch_box_price(
    n: usize,
    candidates: &[[u8; 3]],
    weights: &[u32],
    rows: &[[u32; 3]],
    work: &mut [u64],
) -> PriceAnswer
    ensures { job_price result work.new
        ≡ job_price_of (priced (job_of n candidates.now weights.now rows.now) work.old) }
{
    let job = Job {
        n,
        candidates,
        weights,
        rows,
    };
    pricing::price(&job, work).into()
}

// The tiler's other call: the patch, where the agreed total is the least.
#[unsafe(no_mangle)]
pub extern "C" fn patch_box_patch(
    n: usize,
    candidates: &[[u8; 3]],
    weights: &[u32],
    rows: &[[u32; 3]],
    agreed: u64,
    triangles: &mut [u16],
    work: &mut [u64],
) -> PatchAnswer
    ensures { job_patch result triangles.new work.new
        ≡ job_patch_of (patched_at (job_of n candidates.now weights.now rows.now) agreed triangles.old
        work.old) }
{
    let job = Job {
        n,
        candidates,
        weights,
        rows,
    };
    pricing::patch(&job, agreed, triangles, work).into()
}

// The judge of a patch from elsewhere, as a list of candidates of a direct job.
#[unsafe(no_mangle)]
pub extern "C" fn patch_box_judge(
    n: usize,
    candidates: &[[u8; 3]],
    weights: &[u32],
    rows: &[[u32; 3]],
    list: &[u16],
    stated: u64,
    work: &mut [u64],
) -> JudgeAnswer
    ensures { job_judgement result work.new
        ≡ job_judgement_of (judged (job_of n candidates.now weights.now rows.now) list.now stated
        work.old) }
{
    let job = Job {
        n,
        candidates,
        weights,
        rows,
    };
    judge::judge(&job, list, stated, work).into()
}

// The reader alone.
#[unsafe(no_mangle)]
pub extern "C" fn patch_box_read_within(limit: usize, file: &[u8]) -> ReadAnswer
    ensures { result ≡ read_answer_of (reading_of limit file.now) }
{
    reader::read_polygon(limit, file).into()
}

#[unsafe(no_mangle)]
pub extern "C" fn patch_box_read(file: &[u8]) -> ReadAnswer
    ensures { result ≡ read_answer_of (reading_of max_vertices file.now) }
{
    patch_box_read_within(terms::MAX_VERTICES, file)
}

// The candidates, weights and rows of a rim file.
#[unsafe(no_mangle)]
pub extern "C" fn patch_box_find_within(
    limit: usize,
    file: &[u8],
    candidates: &mut [[u8; 3]],
    weights: &mut [u32],
    rows: &mut [[u32; 3]],
) -> FindAnswer
    ensures { rim_lists result candidates.new weights.new rows.new
        ≡ rim_lists_of (find_file limit file.now candidates.old weights.old rows.old) }
{
    pipeline::find_file(limit, file, candidates, weights, rows).into()
}

#[unsafe(no_mangle)]
pub extern "C" fn patch_box_find(
    file: &[u8],
    candidates: &mut [[u8; 3]],
    weights: &mut [u32],
    rows: &mut [[u32; 3]],
) -> FindAnswer
    ensures { rim_lists result candidates.new weights.new rows.new
        ≡ rim_lists_of (find_file max_vertices file.now candidates.old weights.old rows.old) }
{
    patch_box_find_within(terms::MAX_VERTICES, file, candidates, weights, rows)
}

// The places that the tables of the one call and of the finder's need for a rim file.
#[unsafe(no_mangle)]
pub extern "C" fn patch_box_sizes_within(limit: usize, file: &[u8]) -> SizesAnswer
    ensures { result ≡ sizes_answer_of (sizes_file limit file.now) }
{
    pipeline::table_sizes(limit, file).into()
}

#[unsafe(no_mangle)]
pub extern "C" fn patch_box_sizes(file: &[u8]) -> SizesAnswer
    ensures { result ≡ sizes_answer_of (sizes_file max_vertices file.now) }
{
    patch_box_sizes_within(terms::MAX_VERTICES, file)
}

// The converter: a rim file in the other edition.
#[unsafe(no_mangle)]
pub extern "C" fn patch_box_convert(file: &[u8], out: &mut [u8]) -> ConvertAnswer
    ensures { file_conversion result out.new ≡ file_conversion_of (convert_call file.now out.old) }
{
    converter::convert(file, out).into()
}
