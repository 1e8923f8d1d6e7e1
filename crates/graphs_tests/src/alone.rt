// One access alone, with every kind of left side.
use crate::worked::Worked;

pub const LINES: [Worked; 13] = [
    Worked {
        line: "R(i)=A(i);i",
        commands: 5,
        streams: 5,
        graph: "0100 020000000102 0501020103 07000304 0B010401FFFFFF010000 00",
    },
    Worked {
        line: "R()=A(i);i",
        commands: 6,
        streams: 6,
        graph: "0100 020000000102 0501020103 07000304 0A0405 0B0005FFFFFFFF000000 00",
    },
    Worked {
        line: "R(z)=H(z);z",
        commands: 5,
        streams: 5,
        graph: "0100 020700000102 0501020103 07070304 0B010401FFFFFF010000 00",
    },
    Worked {
        line: "R(i,j)=A(i,j);i,j",
        commands: 7,
        streams: 8,
        graph: "0100 020000000102 0501020103 020001030405 0504050406 07000607 0B02070104FFFF010200 00",
    },
    // keys are depths: i is looped first
    Worked {
        line: "R(j,i)=A(i,j);i,j",
        commands: 7,
        streams: 8,
        graph: "0100 020000000102 0501020103 020001030405 0504050406 07000607 0B02070104FFFF020100 00",
    },
    Worked {
        line: "R(i)=A(i,j);i,j",
        commands: 8,
        streams: 9,
        graph: "0100 020000000102 0501020103 020001030405 0504050406 07000607 0A0708 0B010801FFFFFF010000 00",
    },
    // i is reduced outside of j, so no SUM takes it away
    Worked {
        line: "R(j)=A(i,j);i,j",
        commands: 7,
        streams: 8,
        graph: "0100 020000000102 0501020103 020001030405 0504050406 07000607 0B02070104FFFF020000 00",
    },
    Worked {
        line: "R()=A(i,j);i,j",
        commands: 9,
        streams: 10,
        graph: "0100 020000000102 0501020103 020001030405 0504050406 07000607 0A0708 0A0809 0B0009FFFFFFFF000000 00",
    },
    Worked {
        line: "R(i,j,k)=A(i,j,k);i,j,k",
        commands: 9,
        streams: 11,
        graph: "0100 020000000102 0501020103 020001030405 0504050406 020002060708 0507080709 0700090A 0B030A010407FF010203 00",
    },
    Worked {
        line: "R(k,i,j)=A(i,j,k);i,j,k",
        commands: 9,
        streams: 11,
        graph: "0100 020000000102 0501020103 020001030405 0504050406 020002060708 0507080709 0700090A 0B030A010407FF030102 00",
    },
    // j is reduced between the left variables
    Worked {
        line: "R(i,k)=A(i,j,k);i,j,k",
        commands: 9,
        streams: 11,
        graph: "0100 020000000102 0501020103 020001030405 0504050406 020002060708 0507080709 0700090A 0B030A010407FF010300 00",
    },
    Worked {
        line: "R(k)=A(i,j,k);i,j,k",
        commands: 9,
        streams: 11,
        graph: "0100 020000000102 0501020103 020001030405 0504050406 020002060708 0507080709 0700090A 0B030A010407FF030000 00",
    },
    Worked {
        line: "R()=A(a,b,c);a,b,c",
        commands: 12,
        streams: 14,
        graph: "0100 020000000102 0501020103 020001030405 0504050406 020002060708 0507080709 0700090A 0A0A0B 0A0B0C 0A0C0D \
                0B000DFFFFFFFF000000 00",
    },
];
