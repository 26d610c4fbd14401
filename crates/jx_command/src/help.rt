// The help texts of the program. No line is longer than 79 characters, and the manual page has the same words.

pub const VERSION: &str = "0.3.0";

pub const ABOUT: &str = "Validates and indexes JSON texts (RFC 8259) and text sequences (RFC 7464)";

pub const LONG_ABOUT: &str =
    "Validates and indexes JSON texts (RFC 8259) and text sequences (RFC 7464).

Reports whether the input is a JSON text and at which byte it stops being one,
where each value stands, and where JSON Pointers (RFC 6901) lead. Offsets
count the bytes of the whole input from 0; a span S..E leaves E out.";

pub const AFTER: &str =
    "Exit status: 0 accepted, 1 refused, 2 no answer. More by 'jx help COMMAND'.";

pub const LONG_AFTER: &str = "Examples:
  jx check *.json                     which of these files are JSON texts?
  jx check -q < dump.json || echo no  the same, by the exit status alone
  jx explain dump.json                where does this file stop being one?
  jx index dump.json                  a line for each value, with its span
  jx at /users/0/name < dump.json     where this value stands
  jx get /users/0/name < dump.json    its bytes
  jx each /items dump.json            a line for each element of this array
  jx keys /users dump.json            the names of the members of this object
  jx count /items dump.json           how many elements this array has
  jx seq log.json-seq                 which elements of a sequence are texts?
  jx lines log.jsonl                  which lines are not JSON texts?
  jx save dump.json > dump.json.jxi   an index of this file, kept beside it
  jx part --from 0 < part-00 > 00.run the run of this part of a text
  cat ??.run | jx whole --to 81920    are all parts together a JSON text?

Exit status:
  0  the text, every element or line is accepted, every pointer is found
  1  otherwise: standard output says what was refused, and where; of get,
     each, keys, count, save and split standard error does
  2  no answer: standard error says why; a call for help ends so too
Of several files, the greatest status of one.

A message on an input begins 'jx: FILE: ' on standard error; FILE is - for
standard input. One on a pointer has it next, as 'jx: FILE: POINTER: '.";

pub const CHECK: &str = "Check whether the input is a JSON text";

pub const EXPLAIN: &str = "Show where a text stops being one, and why";

pub const INDEX: &str = "Print a line for each value of a JSON text";

pub const AT: &str = "Print where JSON Pointers lead in a JSON text";

pub const GET: &str = "Write the values that JSON Pointers lead to, byte for byte";

pub const EACH: &str = "Write each element of a container on a line of its own";

pub const KEYS: &str = "Write the names of an object, each on a line of its own";

pub const COUNT: &str = "Print how many elements or members a container has";

pub const SEQ: &str = "Report which elements of a JSON text sequence are JSON texts";

pub const LINES: &str = "Report which lines of JSON Lines are not JSON texts";

pub const TEXTS: &str = "Report JSON texts that stand one behind another";

pub const SAVE: &str = "Write the index of a JSON text, to keep beside it";

pub const SPLIT: &str = "Print where to cut a container into parts, by an index";

pub const PART: &str = "Write the run of a part of a JSON text";

pub const JOIN: &str = "Write the joined run of neighboring parts, from their runs";

pub const WHOLE: &str = "Check by the runs of its parts whether a text is a JSON text";

pub const FILES: &str = "Read each FILE in order; - is standard input";

pub const LONG_FILES: &str = "Read each FILE in order; - is standard input, which is read too where
no FILE is named. With two or more, the output for each follows its
name, as 'FILE: accepted'. A fault of a FILE is reported on standard
error, and the others are read.";

pub const WITH_FILENAME: &str = "Write the name of its FILE before each line";

pub const LONG_WITH_FILENAME: &str =
    "Write the name of its FILE and a colon before each line, also where
there is one FILE; - is standard input. With --format gnu or json a
line has the name without this option.";

pub const VERBOSE: &str = "Report one accepted FILE too";

pub const LONG_VERBOSE: &str = "Report one accepted FILE too, as 'FILE: accepted'. Of two or more
each accepted one is reported without this option.";

pub const REFUSED: &str = "Report refused files alone";

pub const LONG_REFUSED: &str =
    "Report refused files alone, and nothing on those that are accepted.";

pub const ONE_FILE: &str = "Read FILE; - is standard input";

pub const LONG_ONE_FILE: &str = "Read FILE; - is standard input, which is read too where no FILE is
named.";

pub const COLOR: &str = "Color the output: auto, always or never";

pub const LONG_COLOR: &str = "Color the output: auto, which is where it is a terminal and neither
NO_COLOR is set nor TERM is dumb, always or never.";

pub const FILE: &str = "Read FILE in place of standard input";

pub const LONG_FILE: &str = "Read FILE in place of standard input. The argument after --file is
taken as it is, also where it begins with a hyphen.";

pub const DEPTH: &str = "Let N containers be open, 0 to 65535";

pub const LONG_DEPTH: &str = "Let N containers (objects and arrays) be open at once, 0 to 65535.
A text that needs more is too deep.";

pub const LONG_DEPTH_OF_RUNS: &str =
    "Let N containers (objects and arrays) be open at once, 0 to 65535.
Each run has to be made with the same number.";

pub const PART_FROM: &str = "The part begins at the offset N of the text";

pub const LONG_PART_FROM: &str = "The part begins at the offset N of the text, at most
9223372036854775807. With this option in every part, a missing,
doubled or misplaced part is reported; without it in any, the order
of the runs is taken on trust.";

pub const WHOLE_FROM: &str = "The text begins at the offset N";

pub const LONG_WHOLE_FROM: &str =
    "The text begins at the offset N, as where a byte order mark is left
out.";

pub const WHOLE_TO: &str = "The text ends at the offset N";

pub const LONG_WHOLE_TO: &str = "The text ends at the offset N, which is its size in bytes where it
begins at 0. The runs have to cover all of it.";

pub const WORKERS: &str = "Use N workers, auto or 1 to 64";

pub const CHECK_WORKERS: &str = "Share the work among N workers, 1 to 64, or auto: one for each
processor that jx may use, at most 16. The answer is the same for
every number. Of one FILE each worker reads chunks of 256 KiB for
itself, and one alone the first MiB. Standard input and pipes they
share from 5.25 MiB on. One worker reads a text with --unique-names.";

pub const EXPLAIN_WORKERS: &str = "Share the work among N workers, 1 to 64, or auto: one for each
processor that jx may use, at most 16. The answer is the same for
every number. They share a text from 5.25 MiB on. One worker reads a
text with --unique-names.";

pub const INDEX_WORKERS: &str =
    "Let there be N workers, 1 to 64, or auto: one for each processor that
jx may use, at most 16. The answer is the same for every number. One
of them reads the text and makes its index. They share the lines of
32768 values or more.";

pub const AT_WORKERS: &str = "Share the work among N workers, 1 to 64, or auto: one for each
processor that jx may use, at most 16. The answer is the same for
every number. They look up many pointers: 10000, and one for each 128
bytes of text. One worker reads the text, looks up fewer pointers,
and looks up by --index.";

pub const GET_WORKERS: &str = "Share the work among N workers, 1 to 64, or auto: one for each
processor that jx may use, at most 16. The answer is the same for
every number. They look up many pointers: 10000, and one for each 128
bytes of text. With --lines each reads chunks of 256 KiB of a FILE,
from a MiB on. One worker reads the text, looks up fewer pointers,
and looks up by --index.";

pub const SEQ_WORKERS: &str = "Share the work among N workers, 1 to 64, or auto: one for each
processor that jx may use, at most 16. The answer is the same for
every number. Of one FILE each worker reads chunks of 256 KiB for
itself, from a MiB on. Standard input and pipes, and any input with
--ignore-bom or --unique-names, they share from 5.25 MiB on. One
worker reads with --live.";

pub const LINES_WORKERS: &str = "Share the work among N workers, 1 to 64, or auto: one for each
processor that jx may use, at most 16. The answer is the same for
every number. Of a FILE each worker reads chunks of 256 KiB for
itself, from a MiB on. Of standard input or a pipe they share what
one read gives, from a MiB on.";

pub const SAVE_WORKERS: &str = "Share the work among N workers, 1 to 64, or auto: one for each
processor that jx may use, at most 16. The output is the same for
every number. Of a FILE of a MiB at least each worker reads chunks of
16384 bytes or more for itself. One worker reads standard input and
pipes, and with --names, --unique-names or --progress always.";

pub const READ_WORKERS: &str = "Share the work among N workers, 1 to 64, or auto: one for each
processor that jx may use, at most 16. The answer is the same for
every number. They share what one read gives, from a MiB on.";

pub const PIECE: &str = "Let a worker take N bytes at a time";

pub const CHECK_PIECE: &str = "Let a worker take N bytes at a time, 1 to 1073741824, of standard
input or a pipe. The answer is the same for every number, and more
than 4294967295 chunks of N bytes are too many.";

pub const EXPLAIN_PIECE: &str = "Let a worker take N bytes at a time, 1 to 1073741824. The answer is
the same for every number, and more than 4294967295 chunks of N bytes
are too many.";

pub const BOUNDING_PIECE: &str = "Let the input have at most 4294967295 chunks of N bytes, 1 to
1073741824. One worker reads, and N bounds the input alone.";

pub const SEQ_PIECE: &str = "Let a worker take whole elements of some N bytes at a time, 1 to
1073741824. The answer is the same for every number, and more than
4294967295 chunks of N bytes are too many.";

pub const EACH_PIECE: &str = "Let a worker take N bytes at a time, 1 to 1073741824. The answer is
the same for every number.";

pub const LINES_PIECE: &str = "Let a worker take whole lines of some N bytes at a time, 1 to
1073741824. The answer is the same for every number.";

pub const IGNORE_BOM: &str = "Ignore a byte order mark in front";

pub const LONG_IGNORE_BOM: &str =
    "Ignore a byte order mark (EF BB BF) in front of a text, before all
white space. Of JSON Lines it is in front of all lines, and of a
sequence before the first record separator. Without this option it is
refused. Offsets count its bytes.";

pub const UNIQUE_NAMES: &str = "Refuse objects that repeat a name";

pub const LONG_UNIQUE_NAMES: &str =
    "Refuse a text or an element in which an object repeats a name. Names
are equal where their values are: escapes stand for the characters
they name. Without this option such a text is accepted (RFC 8259,
section 4).";

pub const SKIP_BLANK: &str = "Skip empty lines";

pub const LONG_SKIP_BLANK: &str = "Skip lines that have no byte, or white space alone. They are
numbered; lines does not count them, and get writes a line without
values and reports nothing. Without this option each is refused.";

pub const PASS: &str = "Write the accepted lines, and report the others";

pub const LONG_PASS: &str = "Write each line that is a JSON text as it stands there, with its line
feed, once that is read. The report is as below, and goes to standard
error. A last line without a line feed gets one if several FILEs are
named. Empty lines never pass, nor does a byte order mark that is
ignored. One worker reads. An input that is an output too is refused.";

pub const BAD: &str = "Append the report of --pass to FILE";

pub const LONG_BAD: &str = "Append the report of --pass to FILE, which is made where there is
none, and not to standard error. Where a line or its report cannot be
written, no more is read.";

pub const MAX: &str = "Report at most N refused lines of each FILE";

pub const LONG_MAX: &str = "Report at most N refused lines of each FILE, 1 or more. Once the line
feed behind the Nth is read and that is reported, jx reads no more of
FILE and writes no total. One worker reads.";

pub const PROGRESS: &str = "Show progress: auto, always or never";

pub const LONG_PROGRESS: &str =
    "Show on standard error how far the input is read, ten times a second
at most: megabytes, the share of FILE's size, and megabytes a second.
Each line overwrites the last one: auto, which is where standard
error is a terminal, always or never, which is the default. The
output is the same. With --format gnu or json nothing is shown.";

pub const CHUNK: &str = "Keep an entry for each N bytes";

pub const LONG_CHUNK: &str = "Keep an entry for each N bytes of the text, a power of two from 64 to
1048576. The index has 64 bytes, 24 for each chunk, and some 24 for
each 64 chunks.";

pub const LIVE: &str = "Report each element as soon as it ends";

pub const LONG_LIVE: &str = "Report each element as soon as the record separator after it is read,
before more input is waited for. What was written stays, also where a
read fails later. One worker reads, and no element is kept in memory.
The lines are those without this option.";

pub const QUIET: &str = "Write no output: the exit status is the answer";

pub const LONG_QUIET: &str = "Write no output: the exit status is the answer. Faults are still
reported on standard error.";

pub const LIST: &str = "List the refused files alone";

pub const LONG_LIST: &str = "List the files that are refused, each name on a line, and nothing
else.";

pub const LONG_LIST_OF_LINES: &str =
    "List the files that have a line that is no JSON text, each name on a
line, and nothing else.";

pub const FORMAT: &str = "Answer as plain, gnu or json";

pub const LONG_FORMAT: &str = "Answer as plain, which is as below, as gnu or as json. With gnu each
file that is refused has a line, FILE:LINE:COLUMN: SENTENCE (byte K),
where COLUMN counts the bytes of a line from 1. With json each file
has an object on a line of its own, with name and verdict. Where it
is refused, offset, line, column, sentence and pointer follow, as
'jx explain' prints them. The pointer is null where a name on the way
has half of a surrogate pair alone. With --unique-names the whole of
a text that is refused is kept in memory.";

pub const LONG_FORMAT_OF_LINES: &str =
    "Answer as plain, which is as below, as gnu or as json. With gnu each
line that is no JSON text has FILE:N:COLUMN: VERDICT, and there is no
total. With json each has an object on a line of its own, with name,
line, column, start, end, offset and verdict. One after them has
name, accepted and refused. COLUMN counts the bytes of a line from 1.";

pub const COMPACT: &str = "Leave out white space between tokens";

pub const LONG_COMPACT: &str =
    "Leave out white space between tokens, so that each value is one line.
Each token keeps its bytes: no number, name or string is written
anew.";

pub const BY_LINE: &str = "Answer each line of JSON Lines by itself";

pub const LONG_BY_LINE: &str = "Read JSON Lines, and write a line for each line: the values of its
text, a tab between, without white space between tokens. It is
written as soon as the line has ended. Not with --raw or
--unique-names.";

pub const TABLE: &str = "Write rows of texts, as tsv or csv";

pub const LONG_TABLE: &str = "Write the row of each line as texts, a cell for each pointer. Of a
string that is the text it stands for, of other values compact JSON.
With tsv a tab is between, and \\t, \\n, \\r and \\\\ stand for a tab, a
line feed, a carriage return and a backslash. With csv a comma is
between, and a line feed ends a row (RFC 4180). There a cell is in
quotation marks if it is empty or the WORD of --null, or has a
quotation mark, a comma, a line end or a backslash. Its own quotation
marks are written twice. A line end in a cell stays, so such a row
takes several lines.";

pub const HEADER: &str = "Write the pointers as the first row";

pub const LONG_HEADER: &str = "Write the pointers as the first row, as they were given, before a
line is read.";

pub const NULL: &str = "Write WORD where there is no value, or null";

pub const LONG_NULL: &str = "Write WORD where there is no value, or null. Without this option that
is \\N with tsv, the cell of no string, and nothing with csv, as COPY
of PostgreSQL reads them. With csv and one pointer such a row is an
empty line, which some readers skip. WORD has no tab, comma, line end
or quotation mark.";

pub const RAW: &str = "Write the text that a string stands for";

pub const RAW_NAMES: &str = "Write the text that a name stands for";

pub const LONG_RAW_NAMES: &str = "Write the text that a name stands for, in UTF-8, without quotation
marks and escapes (RFC 8259, section 7). A name with half of a
surrogate pair alone has no UTF-8: its line is empty. A text with
line ends takes several lines.";

pub const LONG_RAW: &str = "Write the text that a string stands for, in UTF-8, without quotation
marks and escapes (RFC 8259, section 7). Other values are written as
without this option. A string with half of a surrogate pair alone has
no UTF-8: its line is empty. A text with line ends takes several
lines.";

pub const POINTER: &str = "A JSON Pointer (RFC 6901), as it is";

pub const LONG_POINTER: &str = "A JSON Pointer (RFC 6901, section 3), taken as it is: empty for the
whole text, or tokens that each follow a slash, as /users/0/name. In
a token ~1 stands for a slash and ~0 for a tilde. What is .a.b or
$.a.b elsewhere is /a/b here, and a FILE follows --file. After the
argument -- also what begins with a hyphen is taken for a pointer.";

pub const CONTAINER: &str = "Take the container that POINTER leads to";

pub const LONG_CONTAINER: &str =
    "Take the container that POINTER leads to, a JSON Pointer (RFC 6901):
'' or none for the whole text, or tokens that each follow a slash, as
/data/items. Of members with the same name the first is taken.";

pub const NAMES: &str = "Write names too, of the members of an object";

pub const LONG_NAMES: &str = "Write names too, of the members of an object: each line is an object
{\"name\":NAME,\"value\":VALUE}, with the name as the text has it. An
array has no names: it is refused.";

pub const TABLES: &str = "Write tables of names too";

pub const LONG_TABLES: &str = "Write tables of names too, after the index. By them fewer chunks are
read of an object with many members. They have some four bytes for
each member of the objects that stand in several chunks.";

pub const POINTERS: &str = "Look up the lines of FILE too";

pub const LONG_POINTERS: &str = "Look up the lines of FILE too, after the pointers among the
arguments. A line feed ends a line, or a carriage return and a line
feed, and the last line may do without; an empty line is the empty
pointer. There has to be a POINTER or this option.";

pub const INDEX_FILE: &str = "Look up by the index of the text in FILE";

pub const LONG_INDEX_FILE: &str =
    "Look up by the index of the text in FILE, which 'jx save' wrote. Of
the text, which --file has to name, only those chunks are read that
are needed. The checksum of each is checked; whether others have
changed is not seen. Depth, byte order mark and unique names are
those of the index.";

pub const TEXT_FILE: &str = "Read the text in FILE";

pub const LONG_TEXT_FILE: &str = "Read the text in FILE, whose index is given. The argument after
--file is taken as it is, also where it begins with a hyphen.";

pub const PARTS: &str = "Cut into N parts, 1 to 65536";

pub const LONG_PARTS: &str = "Cut into N parts, 1 to 65536, each with about as many bytes. No child
is cut, so that parts may be empty.";

pub const SPLIT_CONTAINER: &str = "Cut the container that POINTER leads to";

pub const LONG_SPLIT_CONTAINER: &str =
    "Cut the container that POINTER leads to, a JSON Pointer (RFC 6901):
'' or none for the whole text, or tokens that each follow a slash, as
/data/items.";

pub const AFTER_CHECK: &str = "Output, one line:
  accepted            the input is a JSON text
  stopped at K        no JSON text goes on with the byte at K
  truncated           the input ends before a JSON text does
  too deep at K       with the byte at K more than N containers would be open
  repeated name at K  the name at K is that of an earlier member of its object
                      (with --unique-names)

Exit status: 0 accepted, 1 refused, 2 no answer; of several files the
greatest.

Examples:
  jx check dump.json
  jx check *.json
  jx check -l *.json
  jx check --format gnu *.json
  zstd -dc dump.json.zst | jx check";

pub const AFTER_EXPLAIN: &str = "Output for a text that is refused:
  FILE:LINE:COLUMN: SENTENCE (byte K)
  the line's text around the place
  a caret below the place
  pointer: POINTER  of the value that is begun or may begin at the place, or of
                    the container around it, unless it is the whole text
  open: BRACKETS    that are not closed where the text ends, outermost first
  perhaps: GUESS    what was meant, where that is likely
Lines end with line feeds and count from 1; columns count the characters of
a line from 1; K counts bytes from 0. FILE is - for standard input. Of a text
that is accepted, where there are several, or with --verbose:
  FILE: accepted

Exit status: 0 accepted, 1 refused, 2 no answer; of several files the
greatest.

Examples:
  jx explain dump.json
  jx explain *.json
  jx explain --color always < dump.json | less -R";

pub const AFTER_INDEX: &str =
    "Output, 'accepted' and a line for each value, in the order of their starts:
  N KIND S..E PARENT PLACE NAME
  N       its number, counted from 0
  KIND    object, array, string, number, true, false or null
  S..E    its span
  PARENT  the number of the object or array that holds it, or -
  PLACE   its place there, counted from 0
  NAME    the span of its name in an object, or -
Of a text that is refused, one line as by 'jx check'.

Exit status: 0 accepted, 1 refused, 2 no answer.

Examples:
  jx index dump.json
  printf '{\"a\":[1,2]}' | jx index";

pub const AFTER_AT: &str = "Output, a line for each pointer, whose tokens count from 0:
  found KIND S..E             the value's kind and span
  no slash                    it is not empty and begins with no slash
  bad escape at K             its byte K is a tilde with no 0 or 1 after it
  no such member at token K   the object has no member of this name
  name repeated at token K    the object has several members of this name
  not an index at token K     the token is no number of an element
  past end at token K         the array has no element of this number
  after last at token K       the token is -
  not a container at token K  what the token is to lead into holds no values
Of a text that is refused, one line as by 'jx check'.

Exit status: 0 all found, 1 refused or not all found, 2 no answer.

The text is read once. At most 256 KiB of it are kept in memory, and with
--unique-names the names of open objects. With 10000 pointers or more the whole
input is kept.

With --index the index is kept in memory, and of the text a chunk at a time.
There is no output where the bytes of a chunk that is read have changed, where
the text has another size, or where FILE is no index.

Examples:
  jx at '' /users/0/name --file dump.json
  jx at --file dump.json -- \"$pointer\"
  jx at --file dump.json --pointers list
  jx at --index dump.json.jxi --file dump.json /users/0/name";

pub const AFTER_GET: &str =
    "Output, a line for each pointer: the bytes of its value as they stand in the
text, or an empty line where it has no value. A value with line ends between
its tokens takes several lines, unless --compact leaves them out.

What is not written is reported on standard error, after the output:
  jx: FILE: POINTER: ANSWER  the pointer leads nowhere; ANSWER is that of
                             'jx at', or with --raw: half a surrogate pair
  jx: FILE: VERDICT          the text is refused, as by 'jx check'; no output

With --lines line i of the output answers line i of the input, and what is not
written is reported while the input is read:
  jx: FILE: line N: POINTER: ANSWER  as above, in the text of line N, and with
                                     --format: half a surrogate pair
  jx: FILE: line N: VERDICT          line N is not a JSON text, as by
                                     'jx lines'; offsets count from the start
                                     of the line

Exit status: 0 all written, 1 refused or not all written, 2 no answer.

With --index the index is kept in memory, and of the text a chunk and a value
at a time. A line is written once the checksums of all chunks of its value were
checked. So before a fault whole lines were written, those of the pointers
before it.

Examples:
  jx get /users/0/name --file dump.json
  jx get -r /users/0/name --file dump.json
  jx get -c '' --file dump.json
  tail -f log | jx get --lines /time /level
  jx get --lines --format csv --header /time /level --file log
  jx get --file dump.json -- \"$pointer\"
  jx get --file dump.json --pointers list
  jx get --index dump.json.jxi --file dump.json /users/0/name";

pub const AFTER_EACH: &str =
    "Output, a line for each element of the array that POINTER leads to, or for
the value of each member of the object. It has the tokens without white space
between them, each with its own bytes. So each line is a JSON text. With
--names a line is {\"name\":NAME,\"value\":VALUE}, for each member of an
object alone.

A line is written once the comma or the bracket after the element was read,
also where the text is refused further on: what was written stays. Who must
not load a part of a text runs 'jx check' first, or ends a transaction by the
status. The text is read to its end, and one element is kept in memory.

Reports on standard error, after the output:
  jx: FILE: VERDICT          the text is refused, as by 'jx check'
  jx: FILE: POINTER: ANSWER  the pointer leads nowhere, as by 'jx at', or:
  not a container at token N    to a scalar, by N tokens
  not an object at token N      with --names: to no object
  name repeated at token N      elements of the first member were written

Exit status: 0 all elements are written, 1 refused or no container, 2 no
answer.

Examples:
  jx each /items dump.json > items.jsonl
  jx each --names /users dump.json
  jx each '' dump.json | head -n 3
  zstd -dc dump.json.zst | jx each /items";

pub const AFTER_KEYS: &str =
    "Output, a line for each member of the object that POINTER leads to, in order:
its name as the string that stands in the text, with its quotation marks and
escapes, or with --raw the text of that. A repeated name comes each time.

A line is written once the comma or the bracket after the member was read,
also where the text is refused further on. The text is read to its end, and
one name is kept in memory.

Reports are those of 'jx each --names', and with --raw before them:
  jx: FILE: POINTER: half a surrogate pair in a name  once, for all such names

Exit status: 0 all names are written, 1 refused or no object, 2 no answer.

Examples:
  jx keys /users dump.json
  jx keys -r '' dump.json | sort | uniq -d";

pub const AFTER_COUNT: &str =
    "Output, a line with how many elements the array has that POINTER leads to, or
how many members the object has, repeated names too. It is written once the
whole text was read and accepted, and else nothing is. One element is kept in
memory.

Reports are those of 'jx each'; after one of them no number is written.

Exit status: 0 the number is written, 1 a report was made, 2 no answer.

Examples:
  jx count /items dump.json
  zstd -dc dump.json.zst | jx count";

pub const AFTER_SEQ: &str = "Output, a line for each element, its span and then:
  accepted            it is a JSON text
  may be cut          its root is a number or a literal with nothing after it
                      (RFC 7464, section 2.4)
  unmarked            it is before the first record separator (byte 1E)
  stopped at K        as by 'jx check'; K counts from the start of the input
  truncated           as by 'jx check'
  too deep at K       as by 'jx check'; K counts from the start of the input
  repeated name at K  as by 'jx check'; K counts from the start of the input

Exit status: 0 all accepted, 1 not all accepted, 2 no answer; of several
files the greatest.

Examples:
  jx seq log.json-seq
  tail -f log.json-seq | jx seq --live
  jx seq --quiet < log.json-seq && echo whole";

pub const AFTER_LINES: &str =
    "Input, JSON Lines (NDJSON): each line is a JSON text. A line feed ends a line,
and the last line may do without. A carriage return before it is white space.

Output, a line for each one that is no JSON text, and then the total:
  N S..E VERDICT          the number of the line, from 1, its span without the
                          line feed, and the verdict on it
  accepted A, refused R   how many lines are JSON texts, and how many not
VERDICT is that of 'jx check', with offsets from the start of the input, or:
  blank                   the line has no byte, or white space alone
  may be cut              no line feed ends it, and its root is a number or a
                          literal with nothing after it

A line is reported once its line feed is read, before more input is waited for;
of a FILE that several workers read, after 16 MiB at most. What was written
stays, also where a read fails later. No line is kept in memory, but with
--pass the one that is read.

Exit status: 0 none is reported, 1 otherwise, 2 no answer; of several files the
greatest.

Examples:
  jx lines log.jsonl
  jx lines -H --format gnu log.jsonl
  tail -n +1 -F log.jsonl | jx lines
  jx lines --skip-blank --quiet log.jsonl && echo whole
  tail -n +1 -F log.jsonl | jx lines --pass --bad refused.txt | ship";

pub const AFTER_TEXTS: &str =
    "Input, JSON texts one behind another, as jq writes them: {\"a\":1}{\"a\":2} or
1 2. White space may stand between them. Behind a number, true, false or null
stands white space, [, {, \" or the end of the input, so that 01 is refused.

Output, a line for each text, its span without white space around it, and then:
  accepted            it is a JSON text
  stopped at K        as by 'jx check'; K counts from the start of the input
  truncated           as by 'jx check'
  too deep at K       as by 'jx check'; K counts from the start of the input
A text that is not accepted is the last one: its line ends the report.

A text is reported once its last byte is read, before more input is waited for;
a number, true, false or null once the byte behind it is. What was written
stays, also where a read fails later. One read is kept in memory.

Exit status: 0 all accepted, 1 one is not, 2 no answer; of several files the
greatest. An input without a text has no line, and its status is 0.

Examples:
  jq . dump.json | jx texts
  kubectl get pods --watch -o json | jx texts
  jx texts --quiet texts.json && echo whole";

pub const AFTER_SAVE: &str =
    "Output, the index of the text, to be kept beside it: of each chunk of the
text how its reading begins, what it opens and closes, and a checksum. With
chunks of 32768 bytes it has 0.075 % of the text's size. It is not JSON, and is
not written to a terminal. The text is read once, and not kept; its index is,
with --names its tables, and with --unique-names the names of open objects.

Reports on standard error:
  jx: FILE: VERDICT  the text is refused, as by 'jx check'; no output

Exit status: 0 the index is written, 1 refused, 2 no answer.

Examples:
  jx save dump.json > dump.json.jxi
  jx save --names dump.json > dump.json.jxi
  zstd -dc dump.json.zst | jx save > dump.json.jxi";

pub const AFTER_SPLIT: &str = "Output, a line for each part that is not empty:
  S..E I..J  the span S..E has the children I up to J of the container
Children are elements, or members with their names. They count from 0; J is
left out. S is after the comma or the bracket before child I, and E before the
one after the last child. With brackets of the container's kind around them
the bytes of a part are a JSON text.

Reports on standard error, with no output:
  jx: FILE: POINTER: ANSWER  the pointer leads nowhere, as by 'jx at', or:
  not a container at token K    to a scalar, by K tokens

The index is kept in memory, and of the text a chunk at a time. There is no
output where the bytes of a chunk that is read have changed, where the text has
another size, or where FILE is no index.

Exit status: 0 the parts are printed, 1 no container, 2 no answer.

Examples:
  jx split --index dump.json.jxi --file dump.json --parts 8
  jx split --index dump.json.jxi --file dump.json --parts 64 /items";

pub const AFTER_PART: &str =
    "Output, one run: some KB with the result of reading the part, whatever is
before it and after it. A part may begin and end at any byte, and may be empty.
It is read once, in constant memory. A run is not JSON, and is not written to a
terminal.

Exit status: 0 the run is written, 2 no answer.

Examples:
  head -c 4096 text.json | jx part --from 0 > 0.run
  tail -c +4097 text.json | jx part --from 4096 > 1.run";

pub const AFTER_JOIN: &str =
    "Input, runs one after another, in the order of their parts. Output, the
run of all these parts. Runs may be joined in any bracketing.

Exit status: 0 the run is written, 2 no answer.

Examples:
  cat 0.run 1.run | jx join > front.run
  cat front.run 2.run | jx join";

pub const AFTER_WHOLE: &str =
    "Input, runs one after another, in the order of their parts. Output, one
line as by 'jx check' on the whole text, with offsets of the whole. It is
right if each run is that of its part.

Exit status: 0 accepted, 1 refused, 2 no answer.

Examples:
  cat 0.run 1.run | jx whole --to $(stat -c %s text.json)
  jx whole --from 3 --to 81920 --file all.run";
