// Accesses of rank 0.
use crate::worked::Worked;

pub const LINES: [Worked; 10] = [
    Worked {
        line: "R()=A();",
        commands: 3,
        streams: 2,
        graph: "0100 07000001 0B0001FFFFFFFF000000 00",
    },
    // brackets around one access show nothing
    Worked {
        line: "R()=((((H()))));",
        commands: 3,
        streams: 2,
        graph: "0100 07070001 0B0001FFFFFFFF000000 00",
    },
    Worked {
        line: "R()=A()*B();",
        commands: 6,
        streams: 5,
        graph: "0100 0101 07000002 07010103 08020304 0B0004FFFFFFFF000000 00",
    },
    // two terms, each with its own WRITE
    Worked {
        line: "R()=A()+B();",
        commands: 6,
        streams: 4,
        graph: "0100 07000001 0B0001FFFFFFFF000000 0102 07010203 0B0003FFFFFFFF000000 00",
    },
    // one term, which adds
    Worked {
        line: "R()=(A()+B());",
        commands: 6,
        streams: 5,
        graph: "0100 0101 07000002 07010103 09020304 0B0004FFFFFFFF000000 00",
    },
    // an access that stands twice has two roots
    Worked {
        line: "R()=C()*C();",
        commands: 6,
        streams: 5,
        graph: "0100 0101 07020002 07020103 08020304 0B0004FFFFFFFF000000 00",
    },
    Worked {
        line: "R()=A()*(B()+C()*D())*E();",
        commands: 15,
        streams: 14,
        graph: "0100 0101 0102 0103 0104 07000005 07010106 07020207 07030308 07040409 0807080A 09060A0B 08050B0C 080C090D \
                0B000DFFFFFFFF000000 00",
    },
    // B is repeated over i
    Worked {
        line: "R(i)=A(i)*B();i",
        commands: 9,
        streams: 9,
        graph: "0100 0101 020000000203 0502030204 06010205 07000406 07010507 08060708 0B010802FFFFFF010000 00",
    },
    Worked {
        line: "R(i,j)=A()*B(i,j);i,j",
        commands: 12,
        streams: 13,
        graph: "0100 0101 020100010203 06000204 0502030205 020101050607 06040608 0506070609 0700080A 0701090B 080A0B0C \
                0B020C0206FFFF010200 00",
    },
    // the bracket has no part in the merge of i
    Worked {
        line: "R()=A(i)*(B()+C()*C());i",
        commands: 18,
        streams: 18,
        graph: "0100 0101 0102 0103 020000000405 0504050406 06010407 06020408 06030409 0700060A 0701070B 0702080C 0702090D \
                080C0D0E 090B0E0F 080A0F10 0A1011 0B0011FFFFFFFF000000 00",
    },
];
