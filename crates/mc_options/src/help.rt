//! The texts of `--help` and `--version`.

/// The version that `--version` prints.
pub const VERSION: &str = "0.1.0";

/// What the program does.
pub const ABOUT: &str =
    "Answers memcached's storage commands from standard input, as a cache that is empty at first.";

/// The rest of `--help`: requests, directives, scripts, limits, exit statuses and an example.
pub const AFTER: &str = "\
Requests are those of memcached's classic text protocol. Without --follow their replies are printed
when the input has ended and its scripts have run.
  get, gets <key>..    gat, gats <exptime> <key>..    touch <key> <exptime>    delete <key>    quit
  set, add, replace, append, prepend <key> <flags> <exptime> <bytes>    incr, decr <key> <delta>
  cas <key> <flags> <exptime> <bytes> <cas number>
A line ends in CR LF or in LF. After a line with <bytes> comes its block: as many bytes as the line
says, then CR LF. After a line that is refused no block is skipped. All lines but those of get,
gets, gat, gats, quit and directives may end in the word noreply. Then nothing is printed for the
line, except ERROR for a wrong number of words.

Directives are lines in the place of a command:
  %at <second>      sets the time, at first 1000, for what follows; it has no reply
  %juggle <class>   works on the lists of a slab class, and prints JUGGLED, how many entries it
  %juggle all       reclaimed, and how many it moved; for all classes it prints the sums
  %crawl <class>    looks at each entry of a slab class, reclaims the dead, and prints CRAWL and how
  %crawl all        many it saw, reclaimed, passed, found gone, saw without exptime and saw with an
                    hour or more to live; then MINUTE, i and how many have i minutes left; then END
  %chunks <class> <n>
                    sets the limit of chunks of a slab class, from 1 to 1,048,576, and prints
                    CHUNKS, the class and the limit; a lower limit evicts nothing by itself
  %next             begins the next script
Slab classes are numbered from 1, in the order of their sizes.

The input is cut at each %next into scripts. They run at the same time, each as a caller of its own
that begins at the time 1000. Replies are printed script by script when all have ended. quit ends
the script: what follows it up to a %next is ignored. With --upkeep the maintainer juggles and the
crawler crawls every slab class at each of the times in order, beside the scripts. They don't wait
for the scripts' times, and print nothing.

With --follow the input is one script, and is answered as it comes: before the program reads on, it
prints the replies to all requests that are whole. %next or quit ends the script.

Limits:
  key           1 to 250 bytes, none of them NUL, LF, CR or space
  line          65,536 bytes before its LF
  flags         below 2^32, at most 20 digits
  exptime       1 to 18 digits with or without a minus sign: 0 is never, up to 2,592,000 are seconds
                from now on, a larger number is a time, and below 0 the item is dead at once
  value         the size of the largest slab class, less 64 bytes and those of the key
  delta         below 2^64, at most 20 digits, as a cas number
  time          0 to 2^62 seconds
  scripts       1 to 62
  upkeep        1 to 1,000 times

An item has a chunk of the smallest slab class that holds 64 bytes, its key and its value. If that
class has no free chunk, one is taken from an item near the tail of the class's lists. If none can
be taken, the reply is SERVER_ERROR out of memory storing object, and to incr and decr it is
SERVER_ERROR out of memory.

Each key belongs to one stripe. Each stripe and each slab class counts its events, as many as
--events allows. A stripe counts one for each command that is answered (of a get or gat one for each
key), for each item that is removed since it is dead or its chunk is taken, and for each mark that
is cleared. A class counts one for each entry that is added, moved or removed, one for each search
that finds no chunk, one for each %chunks, and one or two for each %juggle or time of upkeep. A
script's calls count against --events too, as do those of upkeep: one for each command, for each
class that is juggled or crawled, and for each %chunks. No event is kept: memory holds the items,
and without --follow the input and the replies. With n stripes the new versions of a stripe's items
have cas numbers n apart.

Exit statuses, and the lines on standard error:
  0  all went well, or help or the version was printed
  1  memory or a history ran out; what was answered until then is printed
       mcseg: out of memory
       mcseg: history full                raise --events
  2  the words of the command line or the number of scripts were refused
       error: <what is wrong>             no option as above, one twice, or one without a number
       mcseg: a word of the command line is not UTF-8
       mcseg: bad list                    no decimal numbers with one comma between two, or upkeep
                                          at more than 1,000 times or at one above 2^62
       mcseg: too many scripts            more than 62
       mcseg: bad configuration <number>  the first of these that is out of its bounds:
         1 stripes   1, 2, 4, 8, 16, 32 or 64
         2 sizes     1 to 63 of them, each larger than the one before, from 65 to 1,048,576
         3 chunks    as many limits as sizes, each from 1 to 1,048,576
         4 percents  each from 1 to 99, together at most 99
         5 factors   up to 10,000, and --temp-ttl from 1 to 2,592,000 seconds
         6 callers   1 to 64
         7 events    16 to 4,294,967,296
  3  reading or writing failed, or the system gave no words or no random numbers
       mcseg: input failed
       mcseg: output failed
       mcseg: no words of the command line: <why>
       mcseg: no random numbers: <why>

Example:
  printf 'set a 7 0 5\\r\\nhello\\r\\nget a\\r\\n' | mcseg
prints
  STORED
  VALUE a 7 5
  hello
  END";
