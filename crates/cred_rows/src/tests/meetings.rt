//! Meetings of lanes at a gate: scripts, where their lanes wait for each other, and what their
//! reports must have then, whatever else the threads do.
use crate::tests::crowd::SIXTEEN_STOPS;
use crate::tests::gate::{At, Stop};
use cred_lanes::Place::{AfterDecision, BeforeDecision, InDecision};

/// A script, where its lanes stop at their decisions, and lists of entries that its report has,
/// each list in this order. Where two kinds of events are named, each event of the first comes
/// before each of the second. Between its two parts a script may have so many pairs of lines, by
/// each of which a label holds a credential of the first task and the task gets another.
pub(crate) struct Meeting {
    pub(crate) name: &'static str,
    pub(crate) head: &'static str,
    pub(crate) pairs: u32,
    pub(crate) tail: &'static str,
    pub(crate) stops: &'static [Stop],
    pub(crate) entries: &'static [&'static [&'static str]],
    pub(crate) apart: Option<(&'static str, &'static str)>,
}

pub(crate) const MEETINGS: [Meeting; 15] = [
    Meeting {
        name: "over a broadcast",
        head: "init t1 p1 0 0 n0\nt1 spawn t2\nlane 1\nt1 ids\nlane 2\nt2 ids\n\
            t2 setresuid 5 5 5\nt2 ids\n",
        pairs: 0,
        tail: "",
        stops: &[
            Stop(At(2, 6, BeforeDecision), &[At(1, 4, BeforeDecision)]),
            Stop(At(1, 4, BeforeDecision), &[At(2, 8, BeforeDecision)]),
        ],
        entries: &[
            &[
                "7 begin t2 setresuid 5 5 5 -> ok c1 s1 left 1",
                "7 act 7 -> ok t1 c2 s2 left 0",
                "4 ask h100040 ids -> ok 0 0 0 0 0 0 0 0",
            ],
            &[
                "7 act 7 -> ok t1 c2 s2 left 0",
                "8 ask h100080 ids -> ok 5 5 5 5 0 0 0 0",
            ],
        ],
        apart: None,
    },
    Meeting {
        name: "over a commit",
        head: "init t1 p1 0 0 n0\nt1 spawn t2\nlane 1\nt1 keepcaps 1\nlane 2\nt2 ids\n\
            t2 setresuid 0 0 0\nt2 ids\n",
        pairs: 0,
        tail: "",
        stops: &[
            Stop(At(2, 6, BeforeDecision), &[At(1, 4, BeforeDecision)]),
            Stop(At(1, 4, BeforeDecision), &[At(2, 8, BeforeDecision)]),
        ],
        entries: &[&[
            "4 prepare h100041 t1 h100040 -> ok s1",
            "7 begin t2 setresuid 0 0 0 -> ok c1 s2 left 1",
            "7 act 7 -> ok t1 c2 s3 left 0",
            "4 change h100041 keepcaps 1 -> ok",
            "4 commit h100041 -> stale c0 c2",
            "4 drop h100040 -> ok",
            "4 take h100040 t1 -> ok c2 s3",
            "4 prepare h100041 t1 h100040 -> ok s1",
            "4 commit h100041 -> ok c3 s1",
        ]],
        apart: None,
    },
    Meeting {
        name: "over an exec",
        head: "file prog reg 0 0 0755\ninit t1 p1 0 0 n0\nt1 spawn t2\nlane 1\nt1 ids\n\
            t1 ids\nlane 2\nt2 ids\nt2 exec prog\nt2 ids\n",
        pairs: 0,
        tail: "",
        stops: &[
            Stop(At(2, 8, BeforeDecision), &[At(1, 5, BeforeDecision)]),
            Stop(At(1, 5, BeforeDecision), &[At(2, 10, BeforeDecision)]),
        ],
        entries: &[&[
            "9 commit h100091 -> ok c1 s1 ended 1 gain 0 0 0",
            "5 ask h100050 ids -> ok 0 0 0 0 0 0 0 0",
            "6 take h100060 t1 -> no task t1",
        ]],
        apart: None,
    },
    Meeting {
        name: "over a full table",
        head: "init t1 p1 0 0 n0\ninit t2 p2 0 0 n0\n",
        pairs: 254,
        tail: "lane 1\nask h1 ids\ndrop h1\nlane 2\nt2 ids\nt2 setresuid 0 0 0\nt2 ids\n",
        stops: &[
            Stop(At(2, 515, BeforeDecision), &[At(1, 512, BeforeDecision)]),
            Stop(At(1, 512, BeforeDecision), &[At(2, 517, BeforeDecision)]),
        ],
        entries: &[&[
            "510 begin t1 setresuid 0 0 0 -> ok c255 s255 left 0",
            "516 begin t2 setresuid 0 0 0 -> table full",
            "512 ask h1 ids -> ok 0 0 0 0 0 0 0 0",
        ]],
        apart: None,
    },
    // Each lane stands before its second decision until the next stands before its first.
    Meeting {
        name: "in a ring",
        head: "init t1 p1 1 1 n0\ninit t2 p2 2 2 n0\ninit t3 p3 3 3 n0\nlane 1\nt1 ids\n\
            t1 ids\nlane 2\nt2 ids\nt2 ids\nlane 3\nt3 ids\nt3 ids\n",
        pairs: 0,
        tail: "",
        stops: &[
            Stop(At(1, 6, BeforeDecision), &[At(2, 8, BeforeDecision)]),
            Stop(At(2, 9, BeforeDecision), &[At(3, 11, BeforeDecision)]),
            Stop(At(3, 12, BeforeDecision), &[At(1, 5, BeforeDecision)]),
        ],
        entries: &[
            &[
                "8 take h100080 t2 -> ok c1 s1",
                "6 ask h100060 ids -> ok 1 1 1 1 1 1 1 1",
            ],
            &[
                "11 take h100110 t3 -> ok c2 s2",
                "9 ask h100090 ids -> ok 2 2 2 2 2 2 2 2",
            ],
            &[
                "5 take h100050 t1 -> ok c0 s0",
                "12 ask h100120 ids -> ok 3 3 3 3 3 3 3 3",
            ],
        ],
        apart: None,
    },
    // Lane 1 has decided its question on the credential of task 4, and has not entered it, while
    // that task ends and two others commit. The slot is held, so neither of the two gets it.
    Meeting {
        name: "after a decision",
        head: "init t1 p1 0 0 n0\ninit t4 p4 4 4 n0\nt1 spawn t2\nt1 spawn t3\ntake h1 t4\n\
            take h4 t1\nlane 1\nask h1 ids\nlane 2\nt2 ids\nt2 keepcaps 1\nt2 ids\n\
            lane 3\nt3 ids\nt3 setfsuid 7\nt3 ids\nlane 4\nt4 ids\nt4 exit\nsweep\n\
            ask h4 ids\n",
        pairs: 0,
        tail: "",
        stops: &[
            Stop(At(4, 18, BeforeDecision), &[At(1, 8, AfterDecision)]),
            Stop(At(2, 10, BeforeDecision), &[At(4, 21, BeforeDecision)]),
            Stop(At(3, 14, BeforeDecision), &[At(2, 12, BeforeDecision)]),
            Stop(At(1, 8, AfterDecision), &[At(3, 16, BeforeDecision)]),
        ],
        entries: &[
            &[
                "19 exit t4 -> ok",
                "20 sweep -> ok",
                "11 prepare h100111 t2 h100110 -> ok s2",
                "11 commit h100111 -> ok c2 s2",
                "15 prepare h100151 t3 h100150 -> ok s3",
                "15 commit h100151 -> ok c3 s3",
                "8 ask h1 ids -> ok 4 4 4 4 4 4 4 4",
            ],
            &["20 sweep -> ok", "21 ask h4 ids -> ok 0 0 0 0 0 0 0 0"],
            &[
                "15 change h100151 setfsuid 7 -> ok was 0",
                "16 ask h100160 ids -> ok 0 0 0 7 0 0 0 0",
            ],
        ],
        apart: None,
    },
    // In the next four lane 1 has read the words that it decides by, and decides nothing yet, while
    // lane 2 gets the lock again and again, and comes to the midst of a decision of its own.
    Meeting {
        name: "in a question",
        head: "init t1 p1 0 0 n0\nt1 spawn t2\nlane 1\nt1 ids\nlane 2\nt2 ids\n\
            t2 setresuid 5 5 5\nt2 ids\n",
        pairs: 0,
        tail: "",
        stops: &[
            Stop(At(2, 6, BeforeDecision), &[At(1, 4, InDecision)]),
            Stop(At(1, 4, InDecision), &[At(2, 8, InDecision)]),
        ],
        entries: &[&[
            "7 begin t2 setresuid 5 5 5 -> ok c1 s1 left 1",
            "7 act 7 -> ok t1 c2 s2 left 0",
            "8 take h100080 t2 -> ok c1 s1",
            "4 ask h100040 ids -> ok 0 0 0 0 0 0 0 0",
        ]],
        apart: None,
    },
    Meeting {
        name: "in a change",
        head: "init t1 p1 0 0 n0\nt1 spawn t2\nlane 1\nt1 keepcaps 1\nlane 2\nt2 ids\n\
            t2 setresuid 0 0 0\nt2 ids\n",
        pairs: 0,
        tail: "",
        stops: &[
            Stop(At(2, 6, BeforeDecision), &[At(1, 4, InDecision)]),
            Stop(At(1, 4, InDecision), &[At(2, 8, InDecision)]),
        ],
        entries: &[&[
            "4 prepare h100041 t1 h100040 -> ok s1",
            "7 act 7 -> ok t1 c2 s3 left 0",
            "8 take h100080 t2 -> ok c1 s2",
            "4 change h100041 keepcaps 1 -> ok",
            "4 commit h100041 -> stale c0 c2",
            "4 commit h100041 -> ok c3 s1",
        ]],
        apart: None,
    },
    Meeting {
        name: "in a signal",
        head: "init t1 p1 1 1 n0\ninit t2 p2 0 0 n0\nlane 1\nt1 signal t2\nlane 2\nt2 ids\n\
            t2 setresuid 1 1 1\nt2 ids\n",
        pairs: 0,
        tail: "",
        stops: &[
            Stop(At(2, 6, BeforeDecision), &[At(1, 4, InDecision)]),
            Stop(At(1, 4, InDecision), &[At(2, 8, InDecision)]),
        ],
        entries: &[&[
            "7 begin t2 setresuid 1 1 1 -> ok c2 s2 left 0",
            "8 take h100080 t2 -> ok c2 s2",
            "4 signal t1 h100040 t2 h100041 -> eperm",
        ]],
        apart: None,
    },
    Meeting {
        name: "in an opening",
        head: "file prog reg 0 0 0400\ninit t1 p1 0 0 n0\nt1 spawn t2\nlane 1\n\
            t1 open prog r f1\nlane 2\nt2 ids\nt2 setresuid 5 5 5\nt2 ids\n",
        pairs: 0,
        tail: "",
        stops: &[
            Stop(At(2, 7, BeforeDecision), &[At(1, 5, InDecision)]),
            Stop(At(1, 5, InDecision), &[At(2, 9, InDecision)]),
        ],
        entries: &[&[
            "8 act 8 -> ok t1 c2 s2 left 0",
            "9 take h100090 t2 -> ok c1 s1",
            "5 open h100050 prog r f1 -> ok",
        ]],
        apart: None,
    },
    // While an execve waits for its decision, the file's opener closes it, and the slot of the
    // credential that had opened it is used again.
    Meeting {
        name: "over a closed file",
        head: "file prog reg 0 0 0755\ninit t1 p1 1000 1000 n0\ninit t2 p2 0 0 n0\n\
            t2 open prog r f1\nt2 setresuid 5 5 5\nlane 1\nt1 exec prog\nlane 2\n\
            t2 ids\nt2 close f1\nsweep\nt2 setresuid 5 5 5\nt2 ids\n",
        pairs: 0,
        tail: "",
        stops: &[
            Stop(At(2, 9, BeforeDecision), &[At(1, 7, BeforeDecision)]),
            Stop(At(1, 7, BeforeDecision), &[At(2, 13, BeforeDecision)]),
        ],
        entries: &[
            &[
                "7 prepare h100071 t1 h100070 -> ok s3",
                "10 close f1 -> ok",
                "11 sweep -> ok",
                "12 begin t2 setresuid 5 5 5 -> ok c3 s1 left 0",
                "7 change h100071 exec prog -> ok",
                "7 commit h100071 -> ok c4 s3 ended 0 gain 0 0 0",
            ],
            &[
                "12 begin t2 setresuid 5 5 5 -> ok c3 s1 left 0",
                "13 ask h100130 ids -> ok 5 5 5 5 0 0 0 0",
            ],
        ],
        apart: None,
    },
    // Both stand before their decisions at one time, and after them at one time.
    Meeting {
        name: "two changes of one base",
        head: "init t1 p1 0 0 n0\nt1 spawn t2\ntake h1 t1\nprepare h2 t1 h1\n\
            prepare h3 t2 h1\nlane 1\nchange h2 keepcaps 1\ncommit h2\nt1 bits\nlane 2\n\
            change h3 setfsuid 7\ncommit h3\nt2 ids\n",
        pairs: 0,
        tail: "",
        stops: &[
            Stop(At(1, 7, BeforeDecision), &[At(2, 11, BeforeDecision)]),
            Stop(At(2, 11, BeforeDecision), &[At(1, 7, BeforeDecision)]),
            Stop(At(2, 11, AfterDecision), &[At(1, 7, AfterDecision)]),
            Stop(At(1, 7, AfterDecision), &[At(2, 13, BeforeDecision)]),
        ],
        entries: &[
            &[
                "11 change h3 setfsuid 7 -> ok was 0",
                "12 commit h3 -> ok c1 s2",
                "13 take h100130 t2 -> ok c1 s2",
                "7 change h2 keepcaps 1 -> ok",
                "8 commit h2 -> ok c2 s1",
                "9 ask h100090 bits -> ok 16 0",
            ],
            &[
                "12 commit h3 -> ok c1 s2",
                "13 ask h100130 ids -> ok 0 0 0 7 0 0 0 0",
            ],
        ],
        apart: None,
    },
    // A signal waits for its decision while its target leaves root; it is decided on the credential
    // that its hold has. The next one is decided, and not yet entered, while the target ends.
    Meeting {
        name: "over signals",
        head: "init t1 p1 1000 1000 n0\ninit t2 p2 0 0 n0\ninit t3 p3 0 0 n0\nlane 1\n\
            t1 signal t2\nt1 signal t2\nlane 2\nt3 ids\nt2 setresuid 1000 1000 1000\n\
            t3 ids\nt2 exit\nt3 ids\n",
        pairs: 0,
        tail: "",
        stops: &[
            Stop(At(2, 8, BeforeDecision), &[At(1, 5, BeforeDecision)]),
            Stop(At(1, 5, BeforeDecision), &[At(2, 10, BeforeDecision)]),
            Stop(At(2, 10, BeforeDecision), &[At(1, 6, AfterDecision)]),
            Stop(At(1, 6, AfterDecision), &[At(2, 12, BeforeDecision)]),
        ],
        entries: &[&[
            "5 takereal h100051 t2 -> ok c1 s1",
            "9 begin t2 setresuid 1000 1000 1000 -> ok c3 s3 left 0",
            "5 signal t1 h100050 t2 h100051 -> eperm",
            "6 takereal h100061 t2 -> ok c3 s3",
            "11 exit t2 -> ok",
            "6 signal t1 h100060 t2 h100061 -> no task t2",
        ]],
        apart: None,
    },
    // A file is to be opened while its opener follows a call that leaves root; that is decided on
    // the credential that the hold has. The next descriptor is decided, and not yet taken, while a
    // task of the other lane takes it.
    Meeting {
        name: "over opened files",
        head: "file s reg 0 0 0600\ninit t1 p1 0 0 n0\ninit t3 p3 0 0 n0\nt1 spawn t2\n\
            lane 1\nt1 open s r f1\nt1 open s r f2\nlane 2\nt3 ids\n\
            t2 setresuid 5 5 5\nt3 open s r f2\nt3 ids\n",
        pairs: 0,
        tail: "",
        stops: &[
            Stop(At(2, 9, BeforeDecision), &[At(1, 6, BeforeDecision)]),
            Stop(At(1, 6, BeforeDecision), &[At(2, 11, BeforeDecision)]),
            Stop(At(2, 11, BeforeDecision), &[At(1, 7, AfterDecision)]),
            Stop(At(1, 7, AfterDecision), &[At(2, 12, BeforeDecision)]),
        ],
        entries: &[&[
            "6 take h100060 t1 -> ok c0 s0",
            "10 begin t2 setresuid 5 5 5 -> ok c2 s2 left 1",
            "10 act 10 -> ok t1 c3 s3 left 0",
            "6 open h100060 s r f1 -> ok",
            "7 take h100070 t1 -> ok c3 s3",
            "11 open h100110 s r f2 -> ok",
            "7 open h100070 s r f2 -> exists f2",
        ]],
        apart: None,
    },
    Meeting {
        name: "sixteen at once",
        head: "init t1 p1 1 1 n0\ninit t2 p2 2 2 n0\ninit t3 p3 3 3 n0\ninit t4 p4 4 4 n0\n\
            init t5 p5 5 5 n0\ninit t6 p6 6 6 n0\ninit t7 p7 7 7 n0\ninit t8 p8 8 8 n0\n\
            init t9 p9 9 9 n0\ninit t10 p10 10 10 n0\ninit t11 p11 11 11 n0\n\
            init t12 p12 12 12 n0\ninit t13 p13 13 13 n0\ninit t14 p14 14 14 n0\n\
            init t15 p15 15 15 n0\ninit t16 p16 16 16 n0\nlane 1\nt1 ids\nlane 2\n\
            t2 ids\nlane 3\nt3 ids\nlane 4\nt4 ids\nlane 5\nt5 ids\nlane 6\nt6 ids\n\
            lane 7\nt7 ids\nlane 8\nt8 ids\nlane 9\nt9 ids\nlane 10\nt10 ids\nlane 11\n\
            t11 ids\nlane 12\nt12 ids\nlane 13\nt13 ids\nlane 14\nt14 ids\nlane 15\n\
            t15 ids\nlane 16\nt16 ids\n",
        pairs: 0,
        tail: "",
        stops: &SIXTEEN_STOPS,
        entries: &[
            &["18 ask h100180 ids -> ok 1 1 1 1 1 1 1 1"],
            &["20 ask h100200 ids -> ok 2 2 2 2 2 2 2 2"],
            &["22 ask h100220 ids -> ok 3 3 3 3 3 3 3 3"],
            &["24 ask h100240 ids -> ok 4 4 4 4 4 4 4 4"],
            &["26 ask h100260 ids -> ok 5 5 5 5 5 5 5 5"],
            &["28 ask h100280 ids -> ok 6 6 6 6 6 6 6 6"],
            &["30 ask h100300 ids -> ok 7 7 7 7 7 7 7 7"],
            &["32 ask h100320 ids -> ok 8 8 8 8 8 8 8 8"],
            &["34 ask h100340 ids -> ok 9 9 9 9 9 9 9 9"],
            &["36 ask h100360 ids -> ok 10 10 10 10 10 10 10 10"],
            &["38 ask h100380 ids -> ok 11 11 11 11 11 11 11 11"],
            &["40 ask h100400 ids -> ok 12 12 12 12 12 12 12 12"],
            &["42 ask h100420 ids -> ok 13 13 13 13 13 13 13 13"],
            &["44 ask h100440 ids -> ok 14 14 14 14 14 14 14 14"],
            &["46 ask h100460 ids -> ok 15 15 15 15 15 15 15 15"],
            &["48 ask h100480 ids -> ok 16 16 16 16 16 16 16 16"],
        ],
        apart: Some(("take", "ask")),
    },
];
