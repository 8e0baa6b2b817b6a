//! A body that goes over the table: one arm for each instruction of a class.

/// A match on the number of an instruction with an arm for each row of a class, in the order of the table. `other` is
/// the arm of all numbers beside. A body that leaves a row of its class out, names one of another class or has another
/// order isn't compiled.
///
/// The class and the number stand first: `by_row!(Copy, number; COPY => .., COPYS => .., COPYB => ..; other)`.
#[macro_export]
macro_rules! by_row {
    ($class:ident, $number:expr; $($name:ident => $body:expr),+; $other:expr) => {{
        $crate::rows_of_class!($class $($name)+);
        match $number {
            $($crate::$name => $body,)+
            _ => $other,
        }
    }};
}

/// The rows of each class in the order of the table: `by_row!` asks it whether its arms are these.
#[macro_export]
macro_rules! rows_of_class {
    (Flow NOP CALL RETURN CATCH THROW TAILCALL JUMPABS CALLF CALLFI CALLFII CALLFIII) => {};
    (Copy COPY COPYS COPYB) => {};
    (Memory ALOAD ALOADS ALOADB ALOADBIT ASTORE ASTORES ASTOREB ASTOREBIT GETMEMSIZE SETMEMSIZE LINEARSEARCH
        BINARYSEARCH LINKEDSEARCH MZERO MCOPY MALLOC MFREE) => {};
    (Stack STKCOUNT STKPEEK STKSWAP STKROLL STKCOPY) => {};
    (Print STREAMCHAR STREAMNUM STREAMSTR STREAMUNICHAR) => {};
    (Game GESTALT DEBUGTRAP RANDOM SETRANDOM QUIT VERIFY RESTART SAVE RESTORE SAVEUNDO RESTOREUNDO PROTECT HASUNDO
        DISCARDUNDO GETSTRINGTBL SETSTRINGTBL GETIOSYS SETIOSYS ACCELFUNC ACCELPARAM) => {};
}
