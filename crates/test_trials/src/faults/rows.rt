//! The rows of `cases/links/failing_ports.txt`. `ci/stored-cases` writes this file.

/// The rows, after a line with the peer and a name.
pub static ROWS: &str = "\
== carrier in version 1: the input ends after N octets
0 to 5: connect, first N, read end => -; 0; closed
6 to 33: connect, first N, read end => UL; 3; closed
34 to 35: connect, first N, read end => UHL; 3; closed
36 to 36: connect, first N, read end => UHPL; 33; closed
== carrier in version 1: a read fails after N octets
0 to 5: connect, first N, read fault, behind N => -; 0; read fault
6 to 33: connect, first N, read fault, behind N => UL; 3; read fault
34 to 35: connect, first N, read fault, behind N => UHL; 3; read fault
36 to 36: connect, first N, read fault => UHPL; 33; read fault
== carrier in version 1: the port takes N octets, and then fails
0 to 2: connect, first 36, N x write 1, write fault => UL; N; write fault
3 to 32: connect, first 36, N x write 1, write fault => UHPL; N; write fault
== carrier in version 1: the port takes N octets, and then none
0 to 2: connect, first 36, N x write 1, write 0 => UL; N; write fault
3 to 32: connect, first 36, N x write 1, write 0 => UHPL; N; write fault
0 to 2: connect, first 36, N x write 1, write block => UL; N; write fault
3 to 32: connect, first 36, N x write 1, write block => UHPL; N; write fault
== carrier in version 1: interruptions in a row
0 to 36: connect, first N, 16 x read interrupted, behind N => UHPL; 33; closed
0 to 5: connect, first N, 17 x read interrupted, behind N => -; 0; read fault
6 to 33: connect, first N, 17 x read interrupted, behind N => UL; 3; read fault
34 to 35: connect, first N, 17 x read interrupted, behind N => UHL; 3; read fault
36 to 36: connect, first N, 17 x read interrupted => UHPL; 33; read fault
0 to 32: connect, first 36, N x write 1, 16 x write interrupted => UHPL; 33; closed
0 to 2: connect, first 36, N x write 1, 17 x write interrupted => UL; N; write fault
3 to 32: connect, first 36, N x write 1, 17 x write interrupted => UHPL; N; write fault
== carrier in version 1: a read would block after N octets
0 to 36: connect, first N, read block, again, behind N => UHPL; 33; closed
== carrier in version 1: an octet with each write
33 to 33: connect, first 36, N x write 1 => UHPL; 33; closed
== carrier in version 1: a silent connection is cut, and the next one is served whole
0 to 0: connect, hex 010401000001021A00, read block, silent => UL; 3; closed
0 to 0: connect, hex 010401000001021A00, read block, silent, connect, first 36 => ULUHPL; 3 33; closed
0 to 5: connect, first N, read block, silent, connect, first 36 => UHPL; 33; closed
6 to 33: connect, first N, read block, silent, connect, first 36 => ULUHPL; 3 33; closed
34 to 35: connect, first N, read block, silent, connect, first 36 => UHLUHPL; 3 33; closed
36 to 36: connect, first N, read block, silent, connect, first 36 => UHPLUHPL; 33 33; closed
== carrier in version 1: another connection after each ending
0 to 0: connect, hex 0104010000010500, connect, first 36 => ULUHPL; 3 33; closed
0 to 0: connect, hex 01040100000106, connect, first 36 => ULUHPL; 3 33; closed
0 to 0: connect, hex 06, connect, hex 01040100000106 => UL; 3; unknown type
6 to 33: connect, first N, read fault, connect, first 36 => ULUHPL; 3 33; closed
6 to 33: connect, first N, 17 x read interrupted, connect, first 36 => ULUHPL; 3 33; closed
0 to 2: connect, first 36, N x write 1, write fault, connect, first 36 => ULUHPL; N 33; closed
3 to 32: connect, first 36, N x write 1, write fault, connect, first 36 => UHPLUHPL; N 33; closed
== carrier in version 1: octets with which no frame begins
0 to 0: connect, hex 00 => -; 0; unknown type
6 to 7: connect, hex NN => -; 0; unknown type
255 to 255: connect, hex NN => -; 0; unknown type
6 to 7: connect, hex 010401000001NN0300 => UL; 3; unknown type
129 to 131: connect, hex 010401000001NN0300 => UL; 3; unknown type
2 to 3: connect, hex 010401000001021ANN => UL; 3; bad slot
255 to 255: connect, hex 010401000001021ANN => UL; 3; bad slot
2 to 3: connect, hex 0104010000010401NN => UL; 3; bad slot
255 to 255: connect, hex 0104010000010401NN => UL; 3; bad slot
129 to 143: connect, first 33, hex NN0300 => UL; 3; bad pad
== carrier in version 1: a first frame that is no HELLO
0 to 0: connect, hex 0300 => -; 0; no hello
0 to 0: connect, hex 0500 => -; 0; no hello
0 to 0: connect, hex 040100 => -; 0; no hello
0 to 0: connect, behind 6 => -; 0; no hello
0 to 0: connect, hex 03000104010000010300 => -; 0; no hello
== carrier in version 1: a fault behind good frames in one piece
0 to 0: connect, hex 010401000001021A000EB49CDF34F2749CECBA5CB3B7C40E88138C9A38F96248E18003000104010000010300 => UHPL; 33; second hello
0 to 0: connect, hex 010401000001021A000EB49CDF34F2749CECBA5CB3B7C40E88138C9A38F96248E18003000104020000010300 => UHPL; 33; second hello
0 to 0: connect, hex 010401000001021A000EB49CDF34F2749CECBA5CB3B7C40E88138C9A38F96248E1800300060300 => UHPL; 33; unknown type
0 to 0: connect, hex 010401000001021A000EB49CDF34F2749CECBA5CB3B7C40E88138C9A38F96248E180030003010300 => UHPL; 33; bad length
0 to 0: connect, hex 010401000001021A000EB49CDF34F2749CECBA5CB3B7C40E88138C9A38F96248E18003000401020300 => UHPL; 33; bad slot
0 to 0: connect, hex 010401000001021A000EB49CDF34F2749CECBA5CB3B7C40E88138C9A38F96248E180030005000300 => UHPL; 33; closed
0 to 0: connect, hex 010401000001, first 33, hex 81 => UL; 3; second hello
== carrier in version 1: nothing is made of what stands behind a write that failed
0 to 0: connect, hex 01040100000103000300050006, write 3, write fault => UPL; 3; write fault
0 to 0: connect, hex 010402000001, write fault => -; 0; write fault
0 to 0: connect, hex 010402000001, 17 x write interrupted => -; 0; write fault
== carrier in version 2: the input ends after N octets
0 to 5: connect, first N, read end => -; 0; closed
6 to 34: connect, first N, read end => UL; 3; closed
35 to 36: connect, first N, read end => UHL; 3; closed
37 to 37: connect, first N, read end => UHPL; 34; closed
== carrier in version 2: a read fails after N octets
0 to 5: connect, first N, read fault, behind N => -; 0; read fault
6 to 34: connect, first N, read fault, behind N => UL; 3; read fault
35 to 36: connect, first N, read fault, behind N => UHL; 3; read fault
37 to 37: connect, first N, read fault => UHPL; 34; read fault
== carrier in version 2: the port takes N octets, and then fails
0 to 2: connect, first 37, N x write 1, write fault => UL; N; write fault
3 to 33: connect, first 37, N x write 1, write fault => UHPL; N; write fault
== carrier in version 2: the port takes N octets, and then none
0 to 2: connect, first 37, N x write 1, write 0 => UL; N; write fault
3 to 33: connect, first 37, N x write 1, write 0 => UHPL; N; write fault
0 to 2: connect, first 37, N x write 1, write block => UL; N; write fault
3 to 33: connect, first 37, N x write 1, write block => UHPL; N; write fault
== carrier in version 2: interruptions in a row
0 to 37: connect, first N, 16 x read interrupted, behind N => UHPL; 34; closed
0 to 5: connect, first N, 17 x read interrupted, behind N => -; 0; read fault
6 to 34: connect, first N, 17 x read interrupted, behind N => UL; 3; read fault
35 to 36: connect, first N, 17 x read interrupted, behind N => UHL; 3; read fault
37 to 37: connect, first N, 17 x read interrupted => UHPL; 34; read fault
0 to 33: connect, first 37, N x write 1, 16 x write interrupted => UHPL; 34; closed
0 to 2: connect, first 37, N x write 1, 17 x write interrupted => UL; N; write fault
3 to 33: connect, first 37, N x write 1, 17 x write interrupted => UHPL; N; write fault
== carrier in version 2: a read would block after N octets
0 to 37: connect, first N, read block, again, behind N => UHPL; 34; closed
== carrier in version 2: an octet with each write
34 to 34: connect, first 37, N x write 1 => UHPL; 34; closed
== carrier in version 2: a silent connection is cut, and the next one is served whole
0 to 0: connect, hex 010402000001021B0500, read block, silent => UL; 3; closed
0 to 0: connect, hex 010402000001021B0500, read block, silent, connect, first 37 => ULUHPL; 3 34; closed
0 to 5: connect, first N, read block, silent, connect, first 37 => UHPL; 34; closed
6 to 34: connect, first N, read block, silent, connect, first 37 => ULUHPL; 3 34; closed
35 to 36: connect, first N, read block, silent, connect, first 37 => UHLUHPL; 3 34; closed
37 to 37: connect, first N, read block, silent, connect, first 37 => UHPLUHPL; 34 34; closed
== carrier in version 2: another connection after each ending
0 to 0: connect, hex 0104020000010500, connect, first 37 => ULUHPL; 3 34; closed
0 to 0: connect, hex 01040200000106, connect, first 37 => ULUHPL; 3 34; closed
0 to 0: connect, hex 06, connect, hex 01040200000106 => UL; 3; unknown type
6 to 34: connect, first N, read fault, connect, first 37 => ULUHPL; 3 34; closed
6 to 34: connect, first N, 17 x read interrupted, connect, first 37 => ULUHPL; 3 34; closed
0 to 2: connect, first 37, N x write 1, write fault, connect, first 37 => ULUHPL; N 34; closed
3 to 33: connect, first 37, N x write 1, write fault, connect, first 37 => UHPLUHPL; N 34; closed
== carrier in version 2: a burst that comes again with its number tells the site nothing, and one with another number is another
0 to 0: connect, first 35, hex 021B05000EB49CDF34F2749CECBA5CB3B7C40E88138C9A38F96248E180, behind 35 => UHPL; 34; closed
0 to 0: connect, first 37, hex 021B05000EB49CDF34F2749CECBA5CB3B7C40E88138C9A38F96248E180 => UHPL; 34; closed
0 to 4: connect, first 35, hex 021BNN000EB49CDF34F2749CECBA5CB3B7C40E88138C9A38F96248E180, behind 35 => UHHPL; 34; closed
6 to 9: connect, first 35, hex 021BNN000EB49CDF34F2749CECBA5CB3B7C40E88138C9A38F96248E180, behind 35 => UHHPL; 34; closed
0 to 0: connect, first 35, hex 021B0502 => UHL; 3; bad slot
== operator: the input ends, or a read fails, after N octets
0 to 6: connect, first N, read end => -; 0; closed
7 to 11: connect, first N, read end => S; 61; closed
12 to 12: connect, first N, read end => SY; 64; closed
0 to 6: connect, first N, read fault, behind N => -; 0; read fault
7 to 11: connect, first N, read fault, behind N => S; 61; read fault
12 to 12: connect, first N, read fault => SY; 64; read fault
== operator: the port takes N octets, and then fails or takes none
0 to 60: connect, first 12, N x write 1, write fault => S; N; write fault
61 to 63: connect, first 12, N x write 1, write fault => SY; N; write fault
0 to 60: connect, first 12, N x write 1, write 0 => S; N; write fault
61 to 63: connect, first 12, N x write 1, write block => SY; N; write fault
== operator: what is wrong with a line cannot be written
0 to 0: connect, hex 68656C6C6F0A737461790A, write fault => -; 0; write fault
== operator: interruptions in a row
0 to 12: connect, first N, 16 x read interrupted, behind N => SY; 64; closed
0 to 6: connect, first N, 17 x read interrupted, behind N => -; 0; read fault
7 to 11: connect, first N, 17 x read interrupted, behind N => S; 61; read fault
0 to 63: connect, first 12, N x write 1, 16 x write interrupted => SY; 64; closed
0 to 60: connect, first 12, N x write 1, 17 x write interrupted => S; N; write fault
61 to 63: connect, first 12, N x write 1, 17 x write interrupted => SY; N; write fault
== operator: a read would block after N octets
0 to 12: connect, first N, read block, again, behind N => SY; 64; closed
== operator: the next connection is served whole
0 to 6: connect, first N, read block, silent, connect, first 12 => SY; 64; closed
7 to 11: connect, first N, read block, silent, connect, first 12 => SSY; 61 64; closed
12 to 12: connect, first N, read block, silent, connect, first 12 => SYSY; 64 64; closed
7 to 11: connect, first N, read end, connect, first 12 => SSY; 61 64; closed
7 to 11: connect, first N, read fault, connect, first 12 => SSY; 61 64; closed
7 to 11: connect, first N, 17 x read interrupted, connect, first 12 => SSY; 61 64; closed
0 to 60: connect, first 12, N x write 1, write fault, connect, first 12 => SSY; N 64; closed
61 to 63: connect, first 12, N x write 1, write fault, connect, first 12 => SYSY; N 64; closed
";
