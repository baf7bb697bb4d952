// Two replicas whose stores the outside fails.
use crate::pair::{PairCase, agreeing};

const WRITES_AND_READS: &[u8] = b"cont c 00000000-0000-0000-0000-000000000001\n\
    obj r c RP_2G1 0\n\
    client\n\
    put r d a =hello\n\
    get r d a\n";

// The leader is given up at a lease: nothing was written, and the other replica is read.
const THE_LEADER_AT_A_LEASE: &[u8] = b"daos 1 targets 2\n\
    stop 0 0\n\
    restart 0 0 2 255\n\
    try 0 0 0 - restart unresolved 0 0 0\n\
    stop 1 0\n\
    restart 1 0 3 16777471\n\
    try 0 0 1 - restart unresolved 0 0 1\n\
    stop 2 0\n\
    restart 2 0 4 16777471\n\
    try 0 0 2 - restart unresolved 0 0 2\n\
    stop 3 0\n\
    restart 3 0 5 33554687\n\
    try 0 0 3 - restart unresolved 0 0 3\n\
    stop 4 0\n\
    restart 4 0 6 33554687\n\
    try 0 0 4 - restart unresolved 0 0 4\n\
    stop 5 0\n\
    restart 5 0 7 50331903\n\
    try 0 0 5 - restart unresolved 0 0 5\n\
    stop 6 0\n\
    restart 6 0 8 50331903\n\
    try 0 0 6 - restart unresolved 0 0 6\n\
    stop 7 0\n\
    restart 7 0 9 67109119\n\
    try 0 0 7 - restart unresolved 0 0 7\n\
    stop 8 0\n\
    down 0\n\
    try 0 0 8 - unknown 0\n\
    try 0 1 0 257 committed\n\
    got 0 absent\n\
    end 8\n";

// The leader is given up at the commit of a write that was told: at the other replica it stays prepared, and nobody knows of it.
const THE_LEADER_AT_ITS_COMMIT: &[u8] = b"daos 1 targets 2\n\
    stop 0 0\n\
    restart 0 0 2 255\n\
    try 0 0 0 - restart unresolved 0 0 0\n\
    stop 1 0\n\
    restart 1 0 3 16777471\n\
    try 0 0 1 - restart unresolved 0 0 1\n\
    stop 2 0\n\
    restart 2 0 4 16777471\n\
    try 0 0 2 - restart unresolved 0 0 2\n\
    stop 3 0\n\
    restart 3 0 5 33554687\n\
    try 0 0 3 - restart unresolved 0 0 3\n\
    stop 4 0\n\
    restart 4 0 6 33554687\n\
    try 0 0 4 - restart unresolved 0 0 4\n\
    stop 5 0\n\
    restart 5 0 7 50331903\n\
    try 0 0 5 - restart unresolved 0 0 5\n\
    stop 6 0\n\
    restart 6 0 8 50331903\n\
    try 0 0 6 - restart unresolved 0 0 6\n\
    stop 7 0\n\
    restart 7 0 9 67109119\n\
    try 0 0 7 - restart unresolved 0 0 7\n\
    try 0 0 8 67109120 committed\n\
    stop 8 0\n\
    down 0\n\
    try 0 1 0 67109377 restart unresolved 0 0 8\n\
    try 0 1 1 67109633 restart unresolved 0 0 8\n\
    try 0 1 2 67109889 restart unresolved 0 0 8\n\
    try 0 1 3 67110145 restart unresolved 0 0 8\n\
    try 0 1 4 67110401 restart unresolved 0 0 8\n\
    try 0 1 5 67110657 restart unresolved 0 0 8\n\
    try 0 1 6 67110913 restart unresolved 0 0 8\n\
    try 0 1 7 67111169 restart unresolved 0 0 8\n\
    try 0 1 8 67111425 restart unresolved 0 0 8\n\
    try 0 1 9 67111681 restart unresolved 0 0 8\n\
    try 0 1 10 67111937 restart unresolved 0 0 8\n\
    try 0 1 11 67112193 restart unresolved 0 0 8\n\
    end 8\n";

// The member is given up while the client's writes have it restart.
const THE_MEMBER: &[u8] = b"daos 1 targets 2\n\
    stop 0 1\n\
    restart 0 1 2 255\n\
    try 0 0 0 256 restart unresolved 0 0 0\n\
    stop 1 1\n\
    restart 1 1 3 16777471\n\
    try 0 0 1 512 restart unresolved 0 0 1\n\
    try 0 0 2 768 restart floor 1 16777471 restart 1\n\
    stop 2 1\n\
    restart 2 1 4 16777471\n\
    try 0 0 3 16777472 restart unresolved 0 0 3\n\
    stop 3 1\n\
    restart 3 1 5 33554687\n\
    try 0 0 4 16777728 restart unresolved 0 0 4\n\
    try 0 0 5 16777984 restart floor 1 33554687 restart 3\n\
    stop 4 1\n\
    restart 4 1 6 33554687\n\
    try 0 0 6 33554688 restart unresolved 0 0 6\n\
    stop 5 1\n\
    restart 5 1 7 50331903\n\
    try 0 0 7 33554944 restart unresolved 0 0 7\n\
    try 0 0 8 33555200 restart floor 1 50331903 restart 5\n\
    stop 6 1\n\
    restart 6 1 8 50331903\n\
    try 0 0 9 50331904 restart unresolved 0 0 9\n\
    stop 7 1\n\
    restart 7 1 9 67109119\n\
    try 0 0 10 50332160 restart unresolved 0 0 10\n\
    try 0 0 11 50332416 restart floor 1 67109119 restart 7\n\
    stop 8 1\n\
    down 1\n\
    try 0 1 0 - restart unresolved 0 1 0\n\
    try 0 1 1 - unknown 1\n\
    end 8\n";

// Neither is given up after eight faults each.
const NEITHER: &[u8] = b"daos 1 targets 2\n\
    stop 0 0\n\
    restart 0 0 2 255\n\
    try 0 0 0 - restart unresolved 0 0 0\n\
    stop 1 0\n\
    restart 1 0 3 16777471\n\
    try 0 0 1 - restart unresolved 0 0 1\n\
    stop 2 0\n\
    restart 2 0 4 16777471\n\
    try 0 0 2 - restart unresolved 0 0 2\n\
    stop 3 0\n\
    restart 3 0 5 33554687\n\
    try 0 0 3 - restart unresolved 0 0 3\n\
    stop 4 0\n\
    restart 4 0 6 33554687\n\
    try 0 0 4 - restart unresolved 0 0 4\n\
    stop 5 0\n\
    restart 5 0 7 50331903\n\
    try 0 0 5 - restart unresolved 0 0 5\n\
    stop 6 0\n\
    restart 6 0 8 50331903\n\
    try 0 0 6 - restart unresolved 0 0 6\n\
    stop 7 0\n\
    restart 7 0 9 67109119\n\
    try 0 0 7 - restart unresolved 0 0 7\n\
    stop 8 1\n\
    restart 8 1 2 255\n\
    try 0 0 8 67109120 restart unresolved 0 0 8\n\
    stop 9 1\n\
    restart 9 1 3 83886335\n\
    try 0 0 9 67109376 restart unresolved 0 0 9\n\
    try 0 0 10 67109632 restart floor 1 83886335 restart 9\n\
    stop 10 1\n\
    restart 10 1 4 83886335\n\
    try 0 0 11 83886336 restart unresolved 0 0 11\n\
    stop 11 1\n\
    try 0 1 0 - restart unresolved 0 1 0\n\
    restart 11 1 5 100663551\n\
    stop 12 1\n\
    try 0 1 1 - restart unresolved 0 1 1\n\
    restart 12 1 6 100663551\n\
    stop 13 1\n\
    try 0 1 2 - restart unresolved 0 1 2\n\
    restart 13 1 7 117440767\n\
    stop 14 1\n\
    try 0 1 3 - restart unresolved 0 1 3\n\
    restart 14 1 8 117440767\n\
    stop 15 1\n\
    try 0 1 4 - restart unresolved 0 1 4\n\
    restart 15 1 9 134217983\n\
    try 0 1 5 134217985 committed\n\
    got 0 absent\n\
    end 0\n";

// One is given up, and then the other.
const BOTH: &[u8] = b"daos 1 targets 2\n\
    stop 0 0\n\
    restart 0 0 2 255\n\
    try 0 0 0 - restart unresolved 0 0 0\n\
    stop 1 0\n\
    restart 1 0 3 16777471\n\
    try 0 0 1 - restart unresolved 0 0 1\n\
    stop 2 0\n\
    restart 2 0 4 16777471\n\
    try 0 0 2 - restart unresolved 0 0 2\n\
    stop 3 0\n\
    restart 3 0 5 33554687\n\
    try 0 0 3 - restart unresolved 0 0 3\n\
    stop 4 0\n\
    restart 4 0 6 33554687\n\
    try 0 0 4 - restart unresolved 0 0 4\n\
    stop 5 0\n\
    restart 5 0 7 50331903\n\
    try 0 0 5 - restart unresolved 0 0 5\n\
    stop 6 0\n\
    restart 6 0 8 50331903\n\
    try 0 0 6 - restart unresolved 0 0 6\n\
    stop 7 0\n\
    restart 7 0 9 67109119\n\
    try 0 0 7 - restart unresolved 0 0 7\n\
    stop 8 0\n\
    down 0\n\
    try 0 0 8 - unknown 0\n\
    stop 9 1\n\
    try 0 1 0 - restart unresolved 0 1 0\n\
    restart 8 1 2 255\n\
    stop 10 1\n\
    try 0 1 1 - restart unresolved 0 1 1\n\
    restart 9 1 3 16777471\n\
    stop 11 1\n\
    try 0 1 2 - restart unresolved 0 1 2\n\
    restart 10 1 4 16777471\n\
    stop 12 1\n\
    try 0 1 3 - restart unresolved 0 1 3\n\
    restart 11 1 5 33554687\n\
    stop 13 1\n\
    try 0 1 4 - restart unresolved 0 1 4\n\
    restart 12 1 6 33554687\n\
    stop 14 1\n\
    try 0 1 5 - restart unresolved 0 1 5\n\
    restart 13 1 7 50331903\n\
    stop 15 1\n\
    try 0 1 6 - restart unresolved 0 1 6\n\
    restart 14 1 8 50331903\n\
    stop 16 1\n\
    try 0 1 7 - restart unresolved 0 1 7\n\
    restart 15 1 9 67109119\n\
    stop 17 1\n\
    down 1\n\
    try 0 1 8 - restart unresolved 0 1 8\n\
    try 0 1 9 - unknown 1\n\
    end 8\n";

#[test]
fn replicas_are_given_up(rt: HostRuntime) {
    let cases = [
        PairCase {
            first: &[1, 2, 3, 4, 5, 6, 7, 8, 9],
            second: &[],
            told: THE_LEADER_AT_A_LEASE,
        },
        PairCase {
            first: &[1, 2, 3, 4, 5, 6, 7, 8, 11],
            second: &[],
            told: THE_LEADER_AT_ITS_COMMIT,
        },
        PairCase {
            first: &[],
            second: &[1, 2, 3, 4, 5, 6, 7, 8, 9],
            told: THE_MEMBER,
        },
        PairCase {
            first: &[1, 2, 3, 4, 5, 6, 7, 8],
            second: &[1, 2, 3, 4, 5, 6, 7, 8],
            told: NEITHER,
        },
        PairCase {
            first: &[1, 2, 3, 4, 5, 6, 7, 8, 9],
            second: &[1, 2, 3, 4, 5, 6, 7, 8, 9],
            told: BOTH,
        },
    ];
    let count = agreeing(&rt, rt.alloc(), &cases, WRITES_AND_READS);
    assert!(rt; count == 5, "case {count}");
}
