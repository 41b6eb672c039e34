//! Stories of a carrier's link that serves version 2. The input is HELLO, the registration of radio 1001 with number 5
//! twice, and two POLLs, 68 octets in all. The whole answer is WELCOME, the TX of the acknowledgement with number 0,
//! DONE, the TX of a Fill with number 1 and DONE, 65 octets in all.

use super::LinkStory;

/// A repeat is not deposited, and the numbers of TX go on over events that the link kept.
pub static NUMBERS: [LinkStory; 4] = [
    (
        "a burst that comes again",
        "\
begin first 68 =>
serve 0 => closed; up heard poll poll lost; 65; 5 5

rounds 36 to 63
# Its first octets are read in one call, and the others in the next.
begin first 0+; read block; behind 0+ =>
serve 0 => idle; up heard; 3; 2 2
serve 0 => closed; poll poll lost; 65; 3 3

rounds 36 to 63
# It doesn't come whole.
begin first 0+ =>
serve => closed; up heard lost; 3
",
    ),
    (
        "the numbers go on over a kept event",
        "\
begin first 68 =>
term 3 =>
serve 0 => term over; up heard poll; 34; 4 4
term 1 =>
serve 0 => term over; poll; 65; 2 2
term 1 =>
serve 0 => closed; lost; 65; 1 1

begin first 68 =>
serve 4 => gate shut; up heard poll; 34; 4 3
serve 0 => closed; poll lost; 65; 2 2
",
    ),
    (
        "frames of either version, and of none",
        "\
begin octets hello registers registers poll poll =>
serve => closed; up heard heard poll poll lost; welcome accepted done accepted done
begin octets hello 2 27; read block =>
serve => bad length; up lost; welcome
begin octets 1 4 2 0 0 1 2 26; read block =>
serve => bad length; up lost; 3
begin octets 1 4 3 0 0 1 poll =>
serve => bad version; -; version
",
    ),
    (
        "one burst, and then an end, a fault or another length",
        "\
rounds 0 to 5
begin first 0+ =>
serve => closed; -; 0

rounds 6 to 34
begin first 0+ =>
serve => closed; up lost; 3

begin first 35 =>
serve => closed; up heard lost; 3
begin first 35; octets 3 =>
serve => closed; up heard lost; 3
begin first 35; octets poll =>
serve => closed; up heard poll lost; 34
begin 17 read interrupted; first 35; octets poll =>
serve => read fault; -; 0
begin 16 read interrupted; first 35; octets poll =>
serve => closed; up heard poll lost; 34

rounds 0 to 2
begin first 35; octets poll; 0+ write 1; write fault =>
serve => write fault; up lost; 0+

rounds 3 to 33
begin first 35; octets poll; 0+ write 1; write fault =>
serve => write fault; up heard poll lost; 0+

begin octets 1 4 2 0 0 1 2 27 5 0; read block =>
serve => idle; up; 3
cut => done; lost; 3
open => yes
port first 35; octets poll =>
serve => closed; up heard poll lost; 34

rounds 0 to 26
begin octets 1 4 2 0 0 1 2 0+; read block =>
serve => bad length; up lost; 3

rounds 28 to 255
begin octets 1 4 2 0 0 1 2 0+; read block =>
serve => bad length; up lost; 3
",
    ),
];
