//! The crawler through the program: kinds by the seconds left, what is reclaimed, and classes summed.
use super::{Example, all_hold};

pub(super) static EXAMPLES: [Example; 6] = [
    // At 1000 `g` is dead, `a` and `b` have less than a minute, `c` has one, `d` 59, `e` an hour, and `f` never dies.
    Example {
        name: "each item is counted by the minutes that it has left",
        words: &["mcseg"],
        input: "%at 999|set g 0 1 1|x|%at 1000|set a 0 1 1|x|set b 0 59 1|x|set c 0 60 1|x|set d 0 3599 1|x|set e 0 3600 1|x|set f 0 0 1|x|%crawl all|",
        output: "STORED|STORED|STORED|STORED|STORED|STORED|STORED|CRAWL 7 1 0 0 1 1|MINUTE 0 2|MINUTE 1 1|MINUTE 59 1|END|",
        status: 0,
        errors: "",
    },
    Example {
        name: "what is dead goes, and its chunk serves another item",
        words: &["mcseg", "--sizes", "96", "--chunks", "1"],
        input: "set a 0 10 1|1|%at 1009|%crawl 1|%at 1010|%crawl 1|%crawl 1|set b 0 0 1|2|get a b|",
        output: "STORED|CRAWL 1 0 0 0 0 0|MINUTE 0 1|END|CRAWL 1 1 0 0 0 0|END|CRAWL 0 0 0 0 0 0|END|STORED|VALUE b 0 1|2|END|",
        status: 0,
        errors: "",
    },
    Example {
        name: "items in TEMP are crawled too",
        words: &["mcseg", "--sizes", "96", "--chunks", "1", "--temp"],
        input: "set a 0 30 1|1|%at 1030|%crawl all|set b 0 0 1|2|get a b|",
        output: "STORED|CRAWL 1 1 0 0 0 0|END|STORED|VALUE b 0 1|2|END|",
        status: 0,
        errors: "",
    },
    Example {
        name: "the counts of all classes are summed",
        words: &["mcseg", "--sizes", "96,192", "--stripes", "4"],
        input: "set a 0 0 1|1|set b 0 0 40|1234567890123456789012345678901234567890|set c 0 4000 1|1|%crawl 1|%crawl 2|%crawl all|",
        output: "STORED|STORED|STORED|CRAWL 2 0 0 0 1 1|END|CRAWL 1 0 0 0 1 0|END|CRAWL 3 0 0 0 2 1|END|",
        status: 0,
        errors: "",
    },
    Example {
        name: "a new expiry counts at once",
        words: &["mcseg"],
        input: "set a 0 100 1|x|%crawl 1|touch a 4000|%crawl 1|gat 60 a|%crawl 1|touch a 0|%crawl 1|",
        output: "STORED|CRAWL 1 0 0 0 0 0|MINUTE 1 1|END|TOUCHED|CRAWL 1 0 0 0 0 1|END|VALUE a 0 1|x|END|CRAWL 1 0 0 0 0 0|MINUTE 1 1|END|TOUCHED|CRAWL 1 0 0 0 1 0|END|",
        status: 0,
        errors: "",
    },
    Example {
        name: "a class that is not there is refused",
        words: &["mcseg", "--sizes", "96,192"],
        input: "%crawl 0|%crawl 3|%crawl 2|",
        output: "CLIENT_ERROR bad command line format|CLIENT_ERROR bad command line format|CRAWL 0 0 0 0 0 0|END|",
        status: 0,
        errors: "",
    },
];

#[test]
fn crawls_count_and_reclaim(rt: HostRuntime) {
    all_hold(&rt, rt.alloc(), EXAMPLES.as_slice());
}
