//! The texts of help. The script `cbor` prints them too, from this file, while no program is built.

use crate::options::{View, Word};
use crate::request::Topic;

/// The version of the program.
pub const VERSION: &str = "\
cbor 0.1.0
";

/// The words of the program.
pub const WORDS: [&str; 8] = [
    "check", "dump", "diag", "json", "encode", "canon", "recode", "help",
];

/// Returns the text of a topic.
pub fn help_text(topic: Topic) -> &'static str {
    match topic {
        Topic::Program => PROGRAM,
        Topic::Recode | Topic::Word(Word::Recode) => RECODE,
        Topic::Word(Word::Check) => CHECK,
        Topic::Word(Word::Show(View::Titles)) => DUMP,
        Topic::Word(Word::Show(View::Notation)) => DIAG,
        Topic::Word(Word::Show(View::Json)) => JSON,
        Topic::Word(Word::Encode) => ENCODE,
        Topic::Word(Word::Canon) => CANON,
    }
}

/// How the program is used.
pub const PROGRAM: &str = "\
usage: cbor WORD [OPTION..] [FILE..]
       cbor                     answers the lines of standard input

    check       says whether files are well-formed CBOR
    dump        shows files title by title
    diag        writes files in diagnostic notation
    json        writes files as JSON, one item a line
    encode      writes the bytes that diagnostic notation spells
    canon       writes files in the deterministic encoding
    recode      copies elements, or the items of files, as raw bytes in their shortest spelling
    help WORD   lists the options, the statuses and examples of a word, as WORD --help does
    --version   says the version

Options may precede files, follow them or stand between them. A value follows its option as the next argument, or after
a =. After -- each argument is a file. - is standard input, which is also read if no file is named.

Each of these lines of standard input has an answer. HEX is an even number of hexadecimal digits, or - for no bytes.
LIMIT may be * for none.

    heads HEX           the titles, one a line: OFFSET NAME VALUE
    chunks SIZE HEX     the string that comes first, read through SIZE bytes
    bytes LIMIT HEX     a byte string of these bytes, in pieces of at most LIMIT bytes
    text LIMIT HEX      the same of a text string
    recode COUNT HEX    COUNT elements in their shortest spelling, and the rest
    strict COUNT HEX    the same, but only the shortest spelling is taken
    skip DEPTH HEX      where the item that comes first ends, with nests at most DEPTH deep

    $ printf 'heads 820102\\n' | ./cbor
    0 array 2
    1 positive 1
    2 positive 2
    end 3
    $ printf 'recode 1 5801ff\\n' | ./cbor
    41ff rest -

The status is 0 if all is well, 1 after a fault, 2 after other arguments, 3 if the program can't be built or an input or
the output failed, and 141 if the reader of the output has gone away.
";

/// How `check` is used.
pub const CHECK: &str = "\
usage: cbor check [OPTION..] [FILE..]

Says whether each file is well-formed CBOR, as a sequence of items: ok ITEMS BYTES, or the first fault with its offset.
The faults are syntax, short, break, deep and more, and with --deterministic refused and more.

    --strict            takes the shortest spelling alone
    --deterministic     takes the deterministic encoding alone (RFC 8949, 4.2), which is also the shortest spelling. Any
                        other item is refused, with the reason. A file is held in memory
    --order NAME        wants --deterministic: the keys of maps are in the order bytewise, which also holds without it,
                        or length-first
    --depth N           takes tags, arrays and maps nested at most N levels deep. N is at most 256, which also holds
                        without it
    --one               wants exactly one item
    --skip N            passes over the first N items, which must be well-formed. Offsets stay those of the whole file
    --items N           takes at most N items, and reads nothing after them as an item
    --index             writes a line for each item at its end: its offset and its length. The verdict is the last line
    --names             begins each answer with the name of the file, even if there is one file alone
    --hex               reads hexadecimal digits, as docs/PROGRAM.md says
    --help              prints this text, as -h does

    $ printf '\\x82\\x01\\x02\\xf6' | ./cbor check
    ok 2 4
    $ printf '82 18' | ./cbor check --names --hex || true
    -: short 2
    $ printf '81 18 01' | ./cbor check --deterministic --hex || true
    refused 1: a shorter form says the same
    $ printf '01 81 02 f6' | ./cbor check --skip 1 --index --hex
    1 2
    3 1
    ok 2 3

The status is 0 if each file is well-formed, 1 if a file is not, 2 after other arguments, 3 if a file can't be read or
the output can't be written, and 141 if the reader of the output has gone away.
";

/// How `dump` is used.
pub const DUMP: &str = "\
usage: cbor dump [OPTION..] [FILE..]

Shows each title of the files on a line: its bytes as digits, indented by its level, and after a # what it means. The
bodies of strings follow in lines of at most 16 bytes. A last line says where a file is not well-formed, and why.
Standard error says so too, unless the output is a terminal.

    --strict        takes the shortest spelling alone
    --depth N       takes tags, arrays and maps nested at most N levels deep. N is at most 256, which also holds without
                    it
    --skip N        passes over the first N items, which must be well-formed. Offsets stay those of the whole file
    --items N       shows at most N items, and reads nothing after them as an item
    --max N         shows at most N lines of each body, and then how many bytes of it follow
    --embedded      shows byte strings whose bytes are one item by the lines of the item: those of a definite length and
                    at most 65536 bytes. With --embedded=tagged only the content of tag 24 is shown so
    --offsets       begins each line that has bytes with the offset of the first one
    --color WHEN    has colors: always, never, or auto, which also holds without it: if the output is a terminal
    --hex           reads hexadecimal digits, as docs/PROGRAM.md says
    --help          prints this text, as -h does

    $ printf '\\x82\\x01\\xf6' | ./cbor dump
    82                                  # array 2
       01                               # [0] 1
       f6                               # [1] null
    $ printf '6161' | ./cbor dump --offsets --hex
         0: 61                                  # text 1
         1:    61                               # \"a\"
    $ printf 'd818 42 8101' | ./cbor dump --embedded --hex
    d8 18                               # tag 24 (encoded item)
       42                               # bytes 2
          81                            # array 1
             01                         # [0] 1

The status is 0 if each file is well-formed, 1 if a file is not, 2 after other arguments, 3 if a file can't be read or
the output can't be written, and 141 if the reader of the output has gone away.
";

/// How `diag` is used.
pub const DIAG: &str = "\
usage: cbor diag [OPTION..] [FILE..]

Writes the items of the files in diagnostic notation, each on a line.

    --strict    takes the shortest spelling alone
    --depth N   takes tags, arrays and maps nested at most N levels deep. N is at most 256, which also holds without it
    --skip N    passes over the first N items, which must be well-formed. Offsets stay those of the whole file
    --items N   writes at most N items, and reads nothing after them as an item
    --exact     writes notation that loses nothing of the bytes: encode makes the same bytes of it
    --embedded  writes byte strings whose bytes are one item as <<ITEM>>: those of a definite length and at most 65536
                bytes. With --embedded=tagged only the content of tag 24 is written so
    --pretty    writes each item that an array or a map contains on a line of its own, indented by its level
    --hex       reads hexadecimal digits, as docs/PROGRAM.md says
    --help      prints this text, as -h does

    $ printf '\\x82\\x01\\x02\\xf6' | ./cbor diag
    [1, 2]
    null
    $ printf 'a1 6161 f5' | ./cbor diag --pretty --hex
    {
      \"a\": true
    }
    $ printf 'd818 43820102' | ./cbor diag --embedded --hex
    24(<<[1, 2]>>)

The status is 0 if each file is well-formed, 1 if a file is not, 2 after other arguments, 3 if a file can't be read or
the output can't be written, and 141 if the reader of the output has gone away.
";

/// How `json` is used.
pub const JSON: &str = "\
usage: cbor json [OPTION..] [FILE..]

Writes the items of the files as JSON (RFC 8949, section 6.1), each on a line. An item that JSON has no form for is
no-json N, with the offset N of the item: a byte string, a tag, a NaN or an infinity, a simple value other than false,
true and null, or a key that is no text. A fault is named on standard error, after the text before it.

    --strict    takes the shortest spelling alone
    --lossy     replaces what JSON has no form for: a byte string by a text of its bytes in base64url, a tag by its
                content, and a float or a simple value by null. The tags 21, 22 and 23 choose base64url, base64 or
                base16 for the byte strings in them. ~ begins the text of a negative bignum. An integer as a key is put
                between quotes. Any other key that is no text and no byte string is still no-json
    --depth N   takes tags, arrays and maps nested at most N levels deep. N is at most 256, which also holds without it
    --one       wants exactly one item
    --skip N    passes over the first N items, which must be well-formed. Offsets stay those of the whole file
    --items N   writes at most N items, and reads nothing after them as an item
    --hex       reads hexadecimal digits, as docs/PROGRAM.md says
    --help      prints this text, as -h does

    $ printf '\\x82\\x01\\x02\\xf6' | ./cbor json
    [1,2]
    null
    $ printf 'a1 01 42 0102' | ./cbor json --lossy --hex
    {\"1\":\"AQI\"}
    $ printf '01 42 0102' | ./cbor json --hex 2>&1 || true
    1
    cbor: -: no-json 1

The status is 0 if each item has JSON, 1 if one has not or a file is not well-formed, 2 after other arguments, 3 if a
file can't be read or the output can't be written, and 141 if the reader of the output has gone away.
";

/// How `encode` is used.
pub const ENCODE: &str = "\
usage: cbor encode [OPTION..] [FILE..]

Reads diagnostic notation (RFC 8949, section 8), and writes the bytes of its items. Each number and length has its
shortest title, unless a mark such as _1 asks for a longer one. A fault is named by its line and column, and no byte of
its file is written. A file is held in memory.

    --depth N   takes tags, arrays and maps nested at most N levels deep. N is at most 256, which also holds without it
    --one       wants exactly one item
    --help      prints this text, as -h does

    $ echo '[1, 2]' | ./cbor encode | od -An -tx1
     82 01 02
    $ echo '[1, 2' | ./cbor encode 2>&1 || true
    cbor: -: line 2, column 1: expected a comma or a closing bracket

The status is 0 if each file is such notation, 1 if a file is not, 2 after other arguments, 3 if a file can't be read or
the output can't be written, and 141 if the reader of the output has gone away.
";

/// How `canon` is used.
pub const CANON: &str = "\
usage: cbor canon [OPTION..] [FILE..]

Writes the items of the files in the deterministic encoding (RFC 8949, 4.2): the shortest titles and floats, no
indefinite lengths, and the keys of each map in order. An item without it is named on standard error with its offset, as
check does, and no byte of its file is written. A file is held in memory.

    --order NAME    orders the keys of maps: bytewise, which also holds without it, or length-first
    --depth N       takes tags, arrays and maps nested at most N levels deep. N is at most 256, which also holds without
                    it
    --help          prints this text, as -h does

    $ printf '\\xa2\\x02\\x18\\x01\\x01\\xf6' | ./cbor canon | od -An -tx1
     a2 01 f6 02 01
    $ printf '\\xa2\\x01\\x02\\x01\\x03' | ./cbor canon 2>&1 || true
    cbor: -: refused 3: the same key twice

The status is 0 if each item has the encoding, 1 if one has not, 2 after other arguments, 3 if a file can't be read or
the output can't be written, and 141 if the reader of the output has gone away.
";

/// How `recode` is used.
pub const RECODE: &str = "\
usage: cbor recode COUNT
       cbor recode [OPTION..] [FILE..]

Copies COUNT elements from standard input to standard output as raw bytes, each in its shortest spelling. Without a
COUNT it copies whole items so, to the end of each file. What is ready is written before more is read, and no file is
held in memory. A fault of an item is named on standard error with its offset, after the output of the bytes before the
byte at fault. A word of digits is a COUNT, so a file with such a name is given as ./123.

    --depth N   without a COUNT takes tags, arrays and maps nested at most N levels deep. N is at most 256, which also
                holds without it
    --skip N    without a COUNT passes over the first N items, which must be well-formed. Offsets stay those of the
                whole file
    --items N   without a COUNT copies at most N items, and reads nothing after them as an item
    --help      prints this text, as -h does

    $ printf '\\x58\\x01\\x01' | ./cbor recode 1 | od -An -tx1
     41 01
    $ printf '\\x18\\x01\\x98\\x01\\x18\\x02' | ./cbor recode | od -An -tx1
     01 81 02
    $ printf '\\x18\\x01\\xff' | ./cbor recode 2>&1 > /dev/null || true
    cbor: -: break 2

The status is 0 if all was copied, 1 after a fault, 2 after other arguments, and 3 if the program can't be built.
Without a COUNT it is also 3 if a file can't be read or the output can't be written, and 141 if the reader of the output
has gone away.
";
