//! Sample pay tables, as texts: small ones and one-column forms of the built-in ones. They are no part of what the
//! program answers.

/// The one-column table of 9/6 Jacks or Better.
pub const JACKS: &[u8] = b"table jacks-9-6
deck 52
wild none
coins 1
line royal royal either 800
line straight-flush straight-flush either 50
line quads quads any either 25
line full-house full-house either 9
line flush flush either 6
line straight straight either 4
line trips trips either 3
line two-pair two-pair either 2
line high-pair pair JQKA either 1
end
";

/// The one-column form of the built-in Bonus table.
pub const BONUS: &[u8] = b"table bonus-8-5
deck 52
wild none
coins 1
line royal royal either 800
line straight-flush straight-flush either 50
line quad-aces quads A either 80
line quad-low quads 234 either 40
line quads quads 56789TJQK either 25
line full-house full-house either 8
line flush flush either 5
line straight straight either 4
line trips trips either 3
line two-pair two-pair either 2
line high-pair pair JQKA either 1
end
";

/// The one-column form of the built-in table with wild deuces.
pub const DEUCES: &[u8] = b"table deuces-full
deck 52
wild 2
coins 1
line natural-royal royal natural 800
line four-deuces wilds 4 either 200
line wild-royal royal wild 25
line five-kind five-kind any either 15
line straight-flush straight-flush either 9
line quads quads any either 5
line full-house full-house either 3
line flush flush either 2
line straight straight either 2
line trips trips either 1
end
";

/// The one-column form of the built-in table with a joker.
pub const KINGS: &[u8] = b"table joker-kings
deck 53
wild none
coins 1
line natural-royal royal natural 800
line five-kind five-kind any either 200
line wild-royal royal wild 100
line straight-flush straight-flush either 50
line quads quads any either 20
line full-house full-house either 7
line flush flush either 5
line straight straight either 3
line trips trips either 2
line two-pair two-pair either 1
line high-pair pair KA either 1
end
";

/// The table of the jokers with kings or better, for one to five coins.
pub const KINGS_BY_COINS: &[u8] = b"table joker-kings
deck 53
wild none
coins 5
line natural-royal royal natural 250 500 750 1000 4000
line five-kind five-kind any either 200 400 600 800 1000
line wild-royal royal wild 100 200 300 400 500
line straight-flush straight-flush either 50 100 150 200 250
line quads quads any either 20 40 60 80 100
line full-house full-house either 7 14 21 28 35
line flush flush either 5 10 15 20 25
line straight straight either 3 6 9 12 15
line trips trips either 2 4 6 8 10
line two-pair two-pair either 1 2 3 4 5
line high-pair pair KA either 1 2 3 4 5
end
";

/// The joker alone pays.
pub const ONE_JOKER: &[u8] = b"table one-joker
deck 53
wild none
coins 1
line joker wilds 1 either 1
end
";

/// The jokers alone pay: 1 for one of them, 2 for both.
pub const TWO_JOKERS: &[u8] = b"table two-jokers
deck 54
wild none
coins 1
line one wilds 1 either 1
line both wilds 2 either 2
end
";

/// Two jokers, and lines that both may help.
pub const JOKER_QUADS: &[u8] = b"table joker-quads
deck 54
wild none
coins 2
line five-kind five-kind any either 90 200
line straight-flush straight-flush either 40 80
line quads quads any either 9 18
line flush flush either 4 8
line trips trips either 1 2
end
";

/// A table that pays nothing.
pub const ZERO: &[u8] = b"table zero
deck 52
wild none
coins 1
line royal royal either 0
end
";

/// The greatest payment.
pub const GREATEST: &[u8] = b"table greatest
deck 52
wild none
coins 1
line royal royal either 500000
line straight-flush straight-flush either 50
line quads quads any either 25
line full-house full-house either 9
line flush flush either 6
line straight straight either 4
line trips trips either 3
line two-pair two-pair either 2
line high-pair pair JQKA either 1
end
";

/// Four aces with a low kicker pay more than other four aces.
pub const KICKER: &[u8] = b"table kickers
deck 52
wild none
coins 1
line kick quads A kicker 234 either 400
line aces quads A either 160
end
";

/// Four deuces with an ace pay more than other four deuces.
pub const DEUCES_AND_ACE: &[u8] = b"table four-ace
deck 52
wild 2
coins 1
line four-ace wilds 4 kicker A either 400
line four wilds 4 either 200
end
";

/// 9/6 Jacks or Better as an operator writes it.
pub const OPERATORS_JACKS: &[u8] = b"# 9/6 Jacks or Better\r
table\tjacks-9-6\r
deck\t52\r
wild\tnone\r
coins\t5\r
line\troyal\troyal\teither\t250\t500\t750\t1000\t4000\r
line\tstraight-flush\tstraight-flush\teither\t50\t100\t150\t200\t250\r
line\tquads\tquads\tany\teither\t25\t50\t75\t100\t125\r
line\tfull-house\tfull-house\teither\t9\t18\t27\t36\t45\r
line\tflush\tflush\teither\t6\t12\t18\t24\t30\r
line\tstraight\tstraight\teither\t4\t8\t12\t16\t20\r
line\ttrips\ttrips\teither\t3\t6\t9\t12\t15\r
line\ttwo-pair\ttwo-pair\teither\t2\t4\t6\t8\t10\r
line\thigh-pair\tpair\tJQKA\teither\t1\t2\t3\t4\t5\r
end\r
";

/// A table of 33 pay lines.
pub const LONG: &[u8] = b"table long
deck 52
wild none
coins 1
line a0 flush either 1
line a1 flush either 1
line a2 flush either 1
line a3 flush either 1
line a4 flush either 1
line a5 flush either 1
line a6 flush either 1
line a7 flush either 1
line a8 flush either 1
line a9 flush either 1
line a10 flush either 1
line a11 flush either 1
line a12 flush either 1
line a13 flush either 1
line a14 flush either 1
line a15 flush either 1
line a16 flush either 1
line a17 flush either 1
line a18 flush either 1
line a19 flush either 1
line a20 flush either 1
line a21 flush either 1
line a22 flush either 1
line a23 flush either 1
line a24 flush either 1
line a25 flush either 1
line a26 flush either 1
line a27 flush either 1
line a28 flush either 1
line a29 flush either 1
line a30 flush either 1
line a31 flush either 1
line a32 flush either 1
end
";
