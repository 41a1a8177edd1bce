//! Laws of what a crawl counts. Their contracts say it all; the bodies are empty.
ghost use Rattle.std.specs.Prelude.{◌≡◌, ◌+◌, ◌*◌, ◌<◌, ◌≤◌, ◌^◌, ◌↔◌, ℕ, List, true, length, slice_index};
ghost use Rattle.mc_item.specs.{Counts.FitsTogether, Counts.added, Counts.no_counts, Item.is_dead};
ghost use Rattle.mc_item.specs.declared.{counts.Histogram.Histogram, item.Item.Item};
ghost use Rattle.mc_crawl.specs.CrawlCount.{counted_as, count_of_kind, IsBalanced, MayCount};
ghost use Rattle.mc_crawl.specs.CrawlKind.{kind_left, kind_of_item, IsCounted};
ghost use Rattle.mc_crawl.specs.CrawlLiving.{Sighting, CrawlsAllLiving, has_at_least, has_minutes, how_many, never_expires, with_all_living};
ghost use Rattle.mc_crawl.specs.declared.kind.Kind.{Kind};
ghost use Rattle.mc_crawl.specs.declared.kind.Kind.TheVariants as kinds;

/// Shows that `seen` is the sum of the counts of all kinds: in an empty histogram, after one more link, and in the sum of two. A
/// sum has each kind as often as both have it together. If `seen` is that sum, no other count overflows before it does, neither
/// with one more link nor in a sum of two.
pub fn kinds_add_up()
    ensures none { IsBalanced no_counts }
    ensures more { (k : Kind) (h : Histogram) → IsCounted k → length h.minutes ≡ 60 → IsBalanced h → IsBalanced (counted_as k h) }
    ensures sum { (a b : Histogram) → length a.minutes ≡ length b.minutes → IsBalanced a → IsBalanced b → IsBalanced (added a b) }
    ensures each { (k : Kind) (a b : Histogram) → length a.minutes ≡ length b.minutes → count_of_kind k (added a b) ≡ count_of_kind k a + count_of_kind k b }
    ensures few { (h : Histogram) → IsBalanced h → h.seen + 1 < 2 ^ 64 → MayCount h }
    ensures fits { (a b : Histogram) → IsBalanced a → IsBalanced b → a.seen + b.seen < 2 ^ 64 → FitsTogether a b }
{}

/// Shows that an item counts as reclaimed if and only if it is dead. With 3,600 seconds left or more it counts as an hour or
/// more, with fewer by its whole minutes.
pub fn kinds_go_by_minutes()
    ensures dead { (moment : ℕ) (item : Item) → (kind_of_item moment item ≡ kinds.Reclaimed) ↔ (is_dead item moment ≡ true) }
    ensures minute { (left minute : ℕ) → minute < 60 → 60 * minute ≤ left → left < 60 * (minute + 1) → kind_left left ≡ kinds.Minute minute }
    ensures hour { (left : ℕ) → 60 * 60 ≤ left → kind_left left ≡ kinds.HourPlus }
{}

/// Shows what a histogram gains by items that were seen alive. The items that never expire are counted as such, those with 3,600
/// seconds left or more as an hour or more, and each other by its whole minutes. All of them are seen, and no other count
/// changes. Crawls of links whose items all live, by the gate's answers, give just that histogram.
pub fn a_histogram_counts_the_living()
    ensures never { (seen : List Sighting) (h : Histogram)
        → (with_all_living seen h).no_expiry ≡ h.no_expiry + how_many never_expires seen }
    ensures hour { (seen : List Sighting) (h : Histogram)
        → (with_all_living seen h).hour_plus ≡ h.hour_plus + how_many (has_at_least 3600) seen }
    ensures minute { (seen : List Sighting) (h : Histogram) (minute : ℕ) → length h.minutes ≡ 60 → minute < 60
        → slice_index (with_all_living seen h).minutes minute ≡ slice_index h.minutes minute + how_many (has_minutes minute) seen }
    ensures seen { (seen : List Sighting) (h : Histogram) → (with_all_living seen h).seen ≡ h.seen + length seen }
    ensures reclaimed { (seen : List Sighting) (h : Histogram) → (with_all_living seen h).reclaimed ≡ h.reclaimed }
    ensures passed { (seen : List Sighting) (h : Histogram) → (with_all_living seen h).passed ≡ h.passed }
    ensures gone { (seen : List Sighting) (h : Histogram) → (with_all_living seen h).gone ≡ h.gone }
    ensures crawls { (seen : List Sighting) (h h_new : Histogram) → CrawlsAllLiving seen h h_new → h_new ≡ with_all_living seen h }
{}
