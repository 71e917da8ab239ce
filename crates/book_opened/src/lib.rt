#![tactic(auto)]

// What an opening gives is a book, its lines are those of the text's tokens, and the names and parents that books can have are those that some opening gives:
// laws alone, and no code. The statements are specs/Opened.antt, specs/Lines.antt and specs/Given.antt.
