//! Sums over set bits by tables, four bits at a time.

ghost use Rattle.std.specs.Prelude.{◌≡◌, ◌*◌};
ghost use Rattle.dmr_bptc.specs.Groups.{AreSumsOfBits, numbers_added};

/// What four bits add to four numbers, for each of `N` groups of four and each of their values. The first bit of a
/// group is the most significant bit of its value.
pub struct GroupTable<const N: usize> {
    /// The four numbers of each value of each group.
    pub entries: [[[u64; 4]; 16]; N],
    /// Has no size. It aligns the entries to 16 octets, so that the processor can add two numbers of an entry directly
    /// from memory.
    pub aligned: [u128; 0],
}

impl<const N: usize> GroupTable<N> {
    /// Returns the four numbers that the set bits of octets add up to, by exclusive or. Bit 0 is the most significant
    /// bit of the first octet. There must be two groups for each octet, and each sum of the table must be that of its
    /// bits.
    pub fn sum_of<const M: usize>(&self, octets: &[u8; M]) -> [u64; 4]
        requires size { N ≡ 2 * M }
        requires sums { AreSumsOfBits self.now.entries }
        ensures { result ≡ numbers_added self.now.entries octets.now (8 * M) }
    {
        let mut first = 0;
        let mut second = 0;
        let mut third = 0;
        let mut fourth = 0;
        for k in 0..M {
            let upper = &self.entries[2 * k][usize::from(octets[k] >> 4)];
            let lower = &self.entries[2 * k + 1][usize::from(octets[k] & 0xF)];
            first ^= upper[0] ^ lower[0];
            second ^= upper[1] ^ lower[1];
            third ^= upper[2] ^ lower[2];
            fourth ^= upper[3] ^ lower[3];
        }
        [first, second, third, fourth]
    }
}
