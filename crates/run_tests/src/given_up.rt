// Runs over a store that the outside fails, and what they leave to the next one. A change of the store that fails
// is made where its number is even.
use crate::two_runs::{Case, agreeing};

const WRITES_AND_READS: &[u8] = b"cont c 00000000-0000-0000-0000-000000000001\n\
    obj o c S1 0\n\
    client\n\
    put o d a =v\n\
    get o d a\n";

const READS_AND_WRITES: &[u8] = b"cont c 00000000-0000-0000-0000-000000000001\n\
    obj o c S1 0\n\
    client\n\
    get o d a\n\
    put o d a =w\n";

// The ninth change that fails is a lease, which isn't made.
const AT_A_LEASE: &[u8] = b"daos 1 targets 1\n\
    stop 0 0\n\
    restart 0 0 2 255\n\
    try 0 0 0 - restart unresolved 0 0 0\n\
    stop 1 0\n\
    restart 1 0 3 16777471\n\
    try 0 0 1 - restart unresolved 0 0 1\n\
    stop 2 0\n\
    restart 2 0 4 16777471\n\
    try 0 0 2 - restart unresolved 0 0 2\n\
    stop 3 0\n\
    restart 3 0 5 33554687\n\
    try 0 0 3 - restart unresolved 0 0 3\n\
    stop 4 0\n\
    restart 4 0 6 33554687\n\
    try 0 0 4 - restart unresolved 0 0 4\n\
    stop 5 0\n\
    restart 5 0 7 50331903\n\
    try 0 0 5 - restart unresolved 0 0 5\n\
    stop 6 0\n\
    restart 6 0 8 50331903\n\
    try 0 0 6 - restart unresolved 0 0 6\n\
    stop 7 0\n\
    restart 7 0 9 67109119\n\
    try 0 0 7 - restart unresolved 0 0 7\n\
    stop 8 0\n\
    down 0\n\
    try 0 0 8 - unknown 0\n\
    try 0 1 0 - unknown 0\n\
    end 8\n\
    lease 262144\n\
    daos 1 targets 1\n\
    try 0 0 0 67109120 committed\n\
    got 0 absent\n\
    try 0 1 0 67109376 committed\n\
    end 0\n\
    lease 327680\n";

// The ninth is one that is made.
const AT_A_LEASE_THAT_IS_MADE: &[u8] = b"daos 1 targets 1\n\
    stop 0 0\n\
    restart 0 0 2 16777471\n\
    try 0 0 0 256 committed\n\
    stop 1 0\n\
    try 0 1 0 - restart unresolved 0 1 0\n\
    restart 1 0 3 16777471\n\
    stop 2 0\n\
    try 0 1 1 - restart unresolved 0 1 1\n\
    restart 2 0 4 33554687\n\
    stop 3 0\n\
    try 0 1 2 - restart unresolved 0 1 2\n\
    restart 3 0 5 33554687\n\
    stop 4 0\n\
    try 0 1 3 - restart unresolved 0 1 3\n\
    restart 4 0 6 50331903\n\
    stop 5 0\n\
    try 0 1 4 - restart unresolved 0 1 4\n\
    restart 5 0 7 50331903\n\
    stop 6 0\n\
    try 0 1 5 - restart unresolved 0 1 5\n\
    restart 6 0 8 67109119\n\
    stop 7 0\n\
    try 0 1 6 - restart unresolved 0 1 6\n\
    restart 7 0 9 67109119\n\
    stop 8 0\n\
    down 0\n\
    try 0 1 7 - restart unresolved 0 1 7\n\
    try 0 1 8 - unknown 0\n\
    end 8\n\
    lease 327680\n\
    daos 1 targets 1\n\
    try 0 0 0 83886336 committed\n\
    got 0 value =v\n\
    try 0 1 0 83886592 committed\n\
    end 0\n\
    lease 393216\n";

// The ninth is an entry, which isn't made: the attempt is unknown, and what it wrote isn't there.
const AT_AN_ENTRY: &[u8] = b"daos 1 targets 1\n\
    stop 0 0\n\
    restart 0 0 2 255\n\
    try 0 0 0 - restart unresolved 0 0 0\n\
    stop 1 0\n\
    restart 1 0 3 16777471\n\
    try 0 0 1 256 restart unresolved 0 0 1\n\
    stop 2 0\n\
    restart 2 0 4 33554687\n\
    try 0 0 2 16777472 restart unresolved 0 0 2\n\
    stop 3 0\n\
    restart 3 0 5 50331903\n\
    try 0 0 3 33554688 restart unresolved 0 0 3\n\
    stop 4 0\n\
    restart 4 0 6 67109119\n\
    try 0 0 4 50331904 restart unresolved 0 0 4\n\
    stop 5 0\n\
    restart 5 0 7 83886335\n\
    try 0 0 5 67109120 restart unresolved 0 0 5\n\
    stop 6 0\n\
    restart 6 0 8 100663551\n\
    try 0 0 6 83886336 restart unresolved 0 0 6\n\
    stop 7 0\n\
    restart 7 0 9 117440767\n\
    try 0 0 7 100663552 restart unresolved 0 0 7\n\
    stop 8 0\n\
    down 0\n\
    try 0 0 8 117440768 unknown 0\n\
    try 0 1 0 - unknown 0\n\
    end 8\n\
    lease 524288\n\
    daos 1 targets 1\n\
    try 0 0 0 134217984 committed\n\
    got 0 absent\n\
    try 0 1 0 134218240 committed\n\
    end 0\n\
    lease 589824\n";

// The ninth is one that is made: the attempt is unknown, and what it wrote is there.
const AT_AN_ENTRY_THAT_IS_MADE: &[u8] = b"daos 1 targets 1\n\
    stop 0 0\n\
    restart 0 0 2 255\n\
    try 0 0 0 - restart unresolved 0 0 0\n\
    stop 1 0\n\
    restart 1 0 3 16777471\n\
    try 0 0 1 - restart unresolved 0 0 1\n\
    stop 2 0\n\
    restart 2 0 4 16777471\n\
    try 0 0 2 - restart unresolved 0 0 2\n\
    stop 3 0\n\
    restart 3 0 5 33554687\n\
    try 0 0 3 - restart unresolved 0 0 3\n\
    stop 4 0\n\
    restart 4 0 6 33554687\n\
    try 0 0 4 - restart unresolved 0 0 4\n\
    stop 5 0\n\
    restart 5 0 7 50331903\n\
    try 0 0 5 - restart unresolved 0 0 5\n\
    stop 6 0\n\
    restart 6 0 8 50331903\n\
    try 0 0 6 - restart unresolved 0 0 6\n\
    stop 7 0\n\
    restart 7 0 9 67109119\n\
    try 0 0 7 - restart unresolved 0 0 7\n\
    stop 8 0\n\
    down 0\n\
    try 0 0 8 67109120 unknown 0\n\
    try 0 1 0 - unknown 0\n\
    end 8\n\
    lease 327680\n\
    daos 1 targets 1\n\
    try 0 0 0 83886336 committed\n\
    got 0 value =v\n\
    try 0 1 0 83886592 committed\n\
    end 0\n\
    lease 393216\n";

// The ninth is a commit that was told, which isn't made.
const AT_A_COMMIT: &[u8] = b"daos 1 targets 1\n\
    stop 0 0\n\
    restart 0 0 2 255\n\
    try 0 0 0 - restart unresolved 0 0 0\n\
    stop 1 0\n\
    restart 1 0 3 16777471\n\
    try 0 0 1 - restart unresolved 0 0 1\n\
    stop 2 0\n\
    restart 2 0 4 16777471\n\
    try 0 0 2 - restart unresolved 0 0 2\n\
    stop 3 0\n\
    restart 3 0 5 33554687\n\
    try 0 0 3 - restart unresolved 0 0 3\n\
    stop 4 0\n\
    restart 4 0 6 33554687\n\
    try 0 0 4 - restart unresolved 0 0 4\n\
    stop 5 0\n\
    restart 5 0 7 50331903\n\
    try 0 0 5 - restart unresolved 0 0 5\n\
    stop 6 0\n\
    restart 6 0 8 50331903\n\
    try 0 0 6 - restart unresolved 0 0 6\n\
    stop 7 0\n\
    restart 7 0 9 67109119\n\
    try 0 0 7 - restart unresolved 0 0 7\n\
    try 0 0 8 67109120 committed\n\
    stop 8 0\n\
    down 0\n\
    try 0 1 0 67109376 restart unresolved 0 1 0\n\
    try 0 1 1 - unknown 0\n\
    end 8\n\
    lease 327680\n\
    daos 1 targets 1\n\
    try 0 0 0 83886336 committed\n\
    got 0 value =v\n\
    try 0 1 0 83886592 committed\n\
    end 0\n\
    lease 393216\n";

// The ninth is one that is made.
const AT_A_COMMIT_THAT_IS_MADE: &[u8] = b"daos 1 targets 1\n\
    try 0 0 0 256 committed\n\
    stop 0 0\n\
    try 0 1 0 512 restart unresolved 0 1 0\n\
    restart 0 0 2 16777471\n\
    stop 1 0\n\
    try 0 1 1 - restart unresolved 0 1 1\n\
    restart 1 0 3 33554687\n\
    stop 2 0\n\
    try 0 1 2 - restart unresolved 0 1 2\n\
    restart 2 0 4 33554687\n\
    stop 3 0\n\
    try 0 1 3 - restart unresolved 0 1 3\n\
    restart 3 0 5 50331903\n\
    stop 4 0\n\
    try 0 1 4 - restart unresolved 0 1 4\n\
    restart 4 0 6 50331903\n\
    stop 5 0\n\
    try 0 1 5 - restart unresolved 0 1 5\n\
    restart 5 0 7 67109119\n\
    stop 6 0\n\
    try 0 1 6 - restart unresolved 0 1 6\n\
    restart 6 0 8 67109119\n\
    stop 7 0\n\
    try 0 1 7 - restart unresolved 0 1 7\n\
    restart 7 0 9 83886335\n\
    stop 8 0\n\
    down 0\n\
    try 0 1 8 83886336 restart unresolved 0 1 8\n\
    try 0 1 9 - unknown 0\n\
    end 8\n\
    lease 393216\n\
    daos 1 targets 1\n\
    try 0 0 0 100663552 committed\n\
    got 0 value =v\n\
    try 0 1 0 100663808 committed\n\
    end 0\n\
    lease 458752\n";

const EIGHT_FAULTS: &[u8] = b"daos 1 targets 1\n\
    stop 0 0\n\
    restart 0 0 2 255\n\
    try 0 0 0 - restart unresolved 0 0 0\n\
    stop 1 0\n\
    restart 1 0 3 16777471\n\
    try 0 0 1 - restart unresolved 0 0 1\n\
    stop 2 0\n\
    restart 2 0 4 16777471\n\
    try 0 0 2 - restart unresolved 0 0 2\n\
    stop 3 0\n\
    restart 3 0 5 33554687\n\
    try 0 0 3 - restart unresolved 0 0 3\n\
    stop 4 0\n\
    restart 4 0 6 33554687\n\
    try 0 0 4 - restart unresolved 0 0 4\n\
    stop 5 0\n\
    restart 5 0 7 50331903\n\
    try 0 0 5 - restart unresolved 0 0 5\n\
    stop 6 0\n\
    restart 6 0 8 50331903\n\
    try 0 0 6 - restart unresolved 0 0 6\n\
    stop 7 0\n\
    restart 7 0 9 67109119\n\
    try 0 0 7 - restart unresolved 0 0 7\n\
    try 0 0 8 67109120 committed\n\
    try 0 1 0 67109376 committed\n\
    got 0 value =v\n\
    end 0\n\
    lease 327680\n\
    daos 1 targets 1\n\
    try 0 0 0 83886336 committed\n\
    got 0 value =v\n\
    try 0 1 0 83886592 committed\n\
    end 0\n\
    lease 393216\n";

const FAILS_WHILE_IT_OPENS: &[u8] = b"daos 1 targets 1\n\
    stop 0 0\n\
    restart 0 0 2 255\n\
    try 0 0 0 - restart unresolved 0 0 0\n\
    stop 1 0\n\
    restart 1 0 3 16777471\n\
    try 0 0 1 - restart unresolved 0 0 1\n\
    stop 2 0\n\
    restart 2 0 4 16777471\n\
    try 0 0 2 - restart unresolved 0 0 2\n\
    stop 3 0\n\
    restart 3 0 5 33554687\n\
    try 0 0 3 - restart unresolved 0 0 3\n\
    stop 4 0\n\
    restart 4 0 6 33554687\n\
    try 0 0 4 - restart unresolved 0 0 4\n\
    stop 5 0\n\
    restart 5 0 7 50331903\n\
    try 0 0 5 - restart unresolved 0 0 5\n\
    stop 6 0\n\
    restart 6 0 8 50331903\n\
    try 0 0 6 - restart unresolved 0 0 6\n\
    stop 7 0\n\
    restart 7 0 9 67109119\n\
    try 0 0 7 - restart unresolved 0 0 7\n\
    stop 8 0\n\
    down 0\n\
    try 0 0 8 67109120 unknown 0\n\
    try 0 1 0 - unknown 0\n\
    end 8\n\
    lease 327680\n\
    fault of target 0\n";

// A case of these two scripts.
fn case<'a>(plan: &'a [u32], told: &'a [u8]) -> Case<'a> {
    Case {
        plan,
        first: WRITES_AND_READS,
        second: READS_AND_WRITES,
        told,
    }
}

// A target is given up at its ninth change that fails, and what waits for it ends as unknown; eight don't do that. Once
// its store is opened again the next run finds what was made. Where the first run leaves an entry, the next one commits
// it as it opens the store, and then forgets it; at either change the store fails.
#[test]
fn nine_faults_give_a_target_up(rt: HostRuntime) {
    let cases = [
        case(&[1, 2, 3, 4, 5, 6, 7, 8, 9], AT_A_LEASE),
        case(&[2, 3, 4, 5, 6, 7, 8, 9, 10], AT_A_LEASE_THAT_IS_MADE),
        case(&[1, 3, 5, 7, 9, 11, 13, 15, 17], AT_AN_ENTRY),
        case(&[1, 2, 3, 4, 5, 6, 7, 8, 10], AT_AN_ENTRY_THAT_IS_MADE),
        case(&[1, 2, 3, 4, 5, 6, 7, 8, 11], AT_A_COMMIT),
        case(&[3, 4, 5, 6, 7, 8, 9, 10, 12], AT_A_COMMIT_THAT_IS_MADE),
        case(&[1, 2, 3, 4, 5, 6, 7, 8], EIGHT_FAULTS),
        case(&[1, 2, 3, 4, 5, 6, 7, 8, 10, 11], FAILS_WHILE_IT_OPENS),
        case(&[1, 2, 3, 4, 5, 6, 7, 8, 10, 12], FAILS_WHILE_IT_OPENS),
    ];
    let count = agreeing(&rt, rt.alloc(), &cases);
    assert!(rt; count == 9, "case {count}");
}
