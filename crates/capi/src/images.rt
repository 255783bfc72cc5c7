// The calls of the image layer: Check, Build, Unpack and Update.
ghost use Rattle.std.specs.Prelude.{◌≡◌, length};
ghost use Rattle.image.specs.Outcome.{sound, after};
ghost use Rattle.image.specs.Layout.{image_of, node_list, cost_list};
ghost use Rattle.image.specs.Calls.{check_outcome};
ghost use Rattle.packing.specs.Calls.{build_fault, build_outcome, unpack_fault, unpack_outcome};
ghost use Rattle.packing.specs.RoundTrip.{ReadsBack, WritesAgain};
ghost use Rattle.record_calls.specs.Records.{record_list, image_after};
ghost use Rattle.record_calls.specs.Calls.{update_fault, update_outcome};
ghost use Rattle.record_calls.specs.Updates.{Updates};
ghost use Rattle.c_replies.specs.Replies.{numbers, reply_of};

use c_replies::Reply;
use image::check::check;
use packing::build::build;
use packing::unpack::unpack;
use record_calls::update::update;

// REFERENCE, section 4.1. v0 to v3: n, m, k and the edition.
#[unsafe(no_mangle)]
pub extern "C" fn vihrolom_check(image: &[u8]) -> Reply
    ensures { numbers result ≡ reply_of (check_outcome image.now) }
{
    let answer = check(image);
    Reply::from(answer)
}

// REFERENCE, section 4.7. v0: the image's length.
#[unsafe(no_mangle)]
pub extern "C" fn vihrolom_build(
    edition: u32,
    n: u32,
    k: u32,
    nodes: &[u16],
    costs: &[u32],
    image: &mut [u8],
) -> Reply
    ensures result_value { numbers result ≡ reply_of (build_outcome edition n k nodes.now costs.now (length image.old)) }
    ensures image_after { image.new ≡ after (build_fault edition n k nodes.now costs.now (length image.old)) (image_of edition n k nodes.now costs.now) image.old }
    ensures reads_back { build_fault edition n k nodes.now costs.now (length image.old) ≡ sound → ReadsBack edition n k nodes.now costs.now }
{
    let answer = build(edition, n, k, nodes, costs, image);
    Reply::from(answer)
}

// REFERENCE, section 4.8. v0 to v3: n, m, k and the edition.
#[unsafe(no_mangle)]
pub extern "C" fn vihrolom_unpack(image: &[u8], nodes: &mut [u16], costs: &mut [u32]) -> Reply
    ensures result_value { numbers result ≡ reply_of (unpack_outcome image.now (length nodes.old) (length costs.old)) }
    ensures nodes_after { nodes.new ≡ after (unpack_fault image.now (length nodes.old) (length costs.old)) (node_list image.now) nodes.old }
    ensures costs_after { costs.new ≡ after (unpack_fault image.now (length nodes.old) (length costs.old)) (cost_list image.now) costs.old }
    ensures writes_again { unpack_fault image.now (length nodes.old) (length costs.old) ≡ sound → WritesAgain image.now }
{
    let answer = unpack(image, nodes, costs);
    Reply::from(answer)
}

// REFERENCE, section 4.10. No values.
#[unsafe(no_mangle)]
pub extern "C" fn vihrolom_update(image: &mut [u8], records: &[u32]) -> Reply
    ensures result_value { numbers result ≡ reply_of (update_outcome image.old records.now) }
    ensures image_after { image.new ≡ after (update_fault image.old records.now) (image_after image.old (record_list records.now)) image.old }
    ensures updates { update_fault image.old records.now ≡ sound → Updates image.old (record_list records.now) }
{
    let answer = update(image, records);
    Reply::from(answer)
}
