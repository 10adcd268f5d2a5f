// The free list of a new box.
ghost use Rattle.std.specs.Prelude.{◌≡◌, ◌<◌, ◌≤◌, length};
ghost use Rattle.rules.specs.Open.{opened_link, opened_links};

// What the link of entry i becomes in a directory of h entries: the next entry, 0 at the last, and 0 at entry 0, which is in
// no list.
#[tactic(auto, unfolding(rules::specs::Open::opened_link))]
fn first_link(h: usize, i: usize) -> u32
    requires { (i < h) × (h ≤ 4096) }
    ensures { result ≡ opened_link h i }
{
    if 1 <= i && i + 1 < h {
        (i + 1) as u32
    } else {
        0
    }
}

// The free list becomes 1, 2, up to the last entry, in order.
pub(crate) fn link_all(links: &mut [u32])
    requires { length links.old ≤ 4096 }
    ensures { links.new ≡ opened_links (length links.old) 0 (length links.old) }
{
    let entries = links.len();
    for (i, link) in links.iter_mut().enumerate() {
        *link = first_link(entries, i);
    }
}
