//! The programs of `examples/`, as `.ci/embed` writes them.

pub const EXAMPLES: [&str; 14] = [
    "% Colouring a map, neighbours never alike: Australia's states with three colours.
colour(red).
colour(green).
colour(blue).

different(X, Y) :- colour(X), colour(Y), X \\== Y.

australia(WA, NT, SA, Q, NSW, V, T) :-
    different(WA, NT),
    different(WA, SA),
    different(NT, SA),
    different(NT, Q),
    different(SA, Q),
    different(SA, NSW),
    different(SA, V),
    different(Q, NSW),
    different(NSW, V),
    colour(T).

% Four regions that all touch each other need a fourth colour.
four(A, B, C, D) :-
    different(A, B), different(A, C), different(A, D),
    different(B, C), different(B, D), different(C, D).
",
    "% A small planner: the farmer, the wolf, the goat and the cabbage cross a river.
% A state is what stands on which bank: s(Farmer, Wolf, Goat, Cabbage).
plan(State, State, _, []).
plan(State, Goal, Seen, [Move | Moves]) :-
    move(State, Move, Next),
    safe(Next),
    absent(Next, Seen),
    plan(Next, Goal, [Next | Seen], Moves).

move(s(A, W, G, C), alone, s(B, W, G, C)) :- across(A, B).
move(s(A, A, G, C), wolf, s(B, B, G, C)) :- across(A, B).
move(s(A, W, A, C), goat, s(B, W, B, C)) :- across(A, B).
move(s(A, W, G, A), cabbage, s(B, W, G, B)) :- across(A, B).

across(west, east).
across(east, west).

% The farmer is with the goat, or nothing that eats or is eaten is.
safe(s(A, _, A, _)).
safe(s(A, A, G, A)) :- across(A, G).

absent(_, []).
absent(State, [Other | States]) :- State \\== Other, absent(State, States).

solution(Moves) :-
    Start = s(west, west, west, west),
    plan(Start, s(east, east, east, east), [Start], Moves).
",
    "% Symbolic differentiation, and a simplifier for what it gives.
derivative(X, X, 1).
derivative(C, X, 0) :- constant(C, X).
derivative(U + V, X, DU + DV) :- derivative(U, X, DU) & derivative(V, X, DV).
derivative(U - V, X, DU - DV) :- derivative(U, X, DU) & derivative(V, X, DV).
derivative(U * V, X, DU * V + U * DV) :- derivative(U, X, DU) & derivative(V, X, DV).
derivative(- U, X, - DU) :- derivative(U, X, DU).
derivative(sin(U), X, cos(U) * DU) :- derivative(U, X, DU).
derivative(cos(U), X, - sin(U) * DU) :- derivative(U, X, DU).

constant(a, _).
constant(b, _).
constant(N, _) :- digit(N).

digit(1).
digit(2).
digit(3).

simple(U + V, W) :- simple(U, A), simple(V, B), sum(A, B, W).
simple(U - V, W) :- simple(U, A), simple(V, B), difference(A, B, W).
simple(U * V, W) :- simple(U, A), simple(V, B), product(A, B, W).
simple(- U, - A) :- simple(U, A).
simple(sin(U), sin(A)) :- simple(U, A).
simple(cos(U), cos(A)) :- simple(U, A).
simple(x, x).
simple(0, 0).
simple(C, C) :- constant(C, x).

sum(0, B, B).
sum(A, 0, A) :- A \\== 0.
sum(A, B, A + B) :- A \\== 0, B \\== 0.

difference(A, 0, A).
difference(A, B, A - B) :- B \\== 0.

product(0, _, 0).
product(A, 0, 0) :- A \\== 0.
product(1, B, B) :- B \\== 0.
product(A, 1, A) :- A \\== 0, A \\== 1.
product(A, B, A * B) :- A \\== 0, A \\== 1, B \\== 0, B \\== 1.
",
    "% Roads between towns, in kilometres, and the ways that they make.
distance(berlin, hamburg, 289).
distance(berlin, leipzig, 190).
distance(hamburg, bremen, 125).
distance(leipzig, dresden, 116).

road(A, B, K) :- distance(A, B, K) ; distance(B, A, K).

way(From, To, Towns, K) :- go(From, To, [From], Towns, K).

go(A, B, _, [A, B], K) :- road(A, B, K).
go(A, C, Seen, [A | Towns], K) :-
    road(A, B, First),
    absent(B, Seen),
    go(B, C, [B | Seen], Towns, Rest),
    K is First + Rest.

absent(_, []).
absent(Town, [Other | Towns]) :- Town \\== Other, absent(Town, Towns).
",
    "% A rule base: who is whose parent, and what follows.
parent(tom, bob).
parent(tom, liz).
parent(pam, bob).
parent(bob, ann).
parent(bob, pat).
parent(pat, jim).
parent(liz, sue).

female(pam).
female(liz).
female(pat).
female(ann).
female(sue).
male(tom).
male(bob).
male(jim).

mother(X, Y) :- parent(X, Y), female(X).
father(X, Y) :- parent(X, Y), male(X).
grandparent(X, Z) :- parent(X, Y), parent(Y, Z).
sibling(X, Y) :- parent(P, X), parent(P, Y), X \\== Y.
aunt(X, Y) :- parent(P, Y), sibling(X, P), female(X).
cousin(X, Y) :- parent(P, X), sibling(P, Q), parent(Q, Y).
ancestor(X, Y) :- parent(X, Y).
ancestor(X, Z) :- parent(X, Y), ancestor(Y, Z).
",
    "% The towers of Hanoi. The moves before and behind the largest disc's move are found side by side.
hanoi(0, _, _, _, []).
hanoi(N, From, To, By, Moves) :-
    N > 0,
    M is N - 1,
    ( (ground(M), ground(From), ground(To), ground(By), indep(Before, After)) =>
        hanoi(M, From, By, To, Before) & hanoi(M, By, To, From, After) ),
    append(Before, [From - To | After], Moves).

append([], Ys, Ys).
append([X | Xs], Ys, [X | Zs]) :- append(Xs, Ys, Zs).

length([], 0).
length([_ | Xs], N) :- length(Xs, M), N is M + 1.
",
    "% The usual relations on lists, forwards and backwards.
append([], Ys, Ys).
append([X | Xs], Ys, [X | Zs]) :- append(Xs, Ys, Zs).

member(X, [X | _]).
member(X, [_ | Xs]) :- member(X, Xs).

select(X, [X | Xs], Xs).
select(X, [Y | Ys], [Y | Zs]) :- select(X, Ys, Zs).

reverse(Xs, Ys) :- reverse(Xs, [], Ys).

reverse([], Ys, Ys).
reverse([X | Xs], Ys, Zs) :- reverse(Xs, [X | Ys], Zs).

length([], 0).
length([_ | Xs], N) :- length(Xs, M), N is M + 1.

permutation([], []).
permutation(Xs, [X | Ys]) :- select(X, Xs, Zs), permutation(Zs, Ys).

prefix(Xs, Ys) :- append(Xs, _, Ys).
last(Xs, X) :- append(_, [X], Xs).
",
    "% Arithmetic on the numbers z, s(z), s(s(z)), ..
plus(z, Y, Y).
plus(s(X), Y, s(Z)) :- plus(X, Y, Z).

times(z, _, z).
times(s(X), Y, Z) :- times(X, Y, P), plus(Y, P, Z).

power(_, z, s(z)).
power(X, s(N), Z) :- power(X, N, P), times(X, P, Z).

value(z, 0).
value(s(X), N) :- value(X, M), N is M + 1.

product(M, N, P) :- peano(X, M), peano(Y, N), times(X, Y, Z), value(Z, P).
peano(z, 0).
peano(s(X), N) :- N > 0, M is N - 1, peano(X, M).
",
    "% An interpreter in the language itself: clauses are facts, and a budget ends what would go on without end.
rule(edge(a, b), []).
rule(edge(b, c), []).
rule(edge(c, a), []).
rule(path(X, Y), [edge(X, Y)]).
rule(path(X, Z), [edge(X, Y), path(Y, Z)]).

solve([]).
solve([Goal | Goals]) :- rule(Goal, Body), append(Body, Goals, Next), solve(Next).

append([], Ys, Ys).
append([X | Xs], Ys, [X | Zs]) :- append(Xs, Ys, Zs).

% The same with a depth, so that it ends.
within([], _).
within([Goal | Goals], Depth) :-
    Depth > 0,
    Less is Depth - 1,
    rule(Goal, Body),
    within(Body, Less) & within(Goals, Depth).
",
    "% N queens on a board of N rows, none attacking another. Row by row, each queen takes a free column.
queens(N, Queens) :- columns(N, Columns), place(Columns, [], Queens).

columns(0, []).
columns(N, [N | Columns]) :- N > 0, M is N - 1, columns(M, Columns).

place([], Queens, Queens).
place(Columns, Placed, Queens) :-
    select(Queen, Columns, Rest),
    safe(Queen, 1, Placed),
    place(Rest, [Queen | Placed], Queens).

select(X, [X | Xs], Xs).
select(X, [Y | Ys], [Y | Zs]) :- select(X, Ys, Zs).

safe(_, _, []).
safe(Queen, Distance, [Other | Placed]) :-
    Other =\\= Queen + Distance,
    Other =\\= Queen - Distance,
    Next is Distance + 1,
    safe(Queen, Next, Placed).
",
    "% Expected: by hand, from the rules of docs/LANGUAGE.md. A refused query has its line among the blocks of the others.
p(1).
p(2).
",
    "% A grammar of simple sentences, as relations between the words before and the words left, and the trees that it gives.
sentence(s(N, V), Words, Rest) :- noun_phrase(Number, N, Words, More), verb_phrase(Number, V, More, Rest).

noun_phrase(Number, np(D, N), Words, Rest) :- determiner(Number, D, Words, More), noun(Number, N, More, Rest).
noun_phrase(one, np(Name), [Name | Rest], Rest) :- name(Name).

verb_phrase(Number, vp(V), Words, Rest) :- verb(Number, V, Words, Rest).
verb_phrase(Number, vp(V, N), Words, Rest) :- verb(Number, V, Words, More), noun_phrase(_, N, More, Rest).

determiner(one, d(a), [a | Rest], Rest).
determiner(_, d(the), [the | Rest], Rest).
determiner(many, d(two), [two | Rest], Rest).

noun(one, n(cat), [cat | Rest], Rest).
noun(many, n(cats), [cats | Rest], Rest).
noun(one, n(dog), [dog | Rest], Rest).

verb(one, v(sees), [sees | Rest], Rest).
verb(many, v(see), [see | Rest], Rest).

name(mary).

parses(Words, Tree) :- sentence(Tree, Words, []).
",
    "% Trees, worked on from both sides: groups that hold always, and groups with checks.
tree(0, leaf(1)).
tree(N, node(Left, Right)) :- N > 0, M is N - 1, tree(M, Left), tree(M, Right).

leaves(leaf(N), N).
leaves(node(Left, Right), N) :-
    ( indep(Left, Right) => leaves(Left, A) & leaves(Right, B) ),
    N is A + B.

mirror(leaf(X), leaf(X)).
mirror(node(L, R), node(S, M)) :-
    ( (indep(L, R), indep(M, S), indep(L, S), indep(R, M)) => mirror(L, M) & mirror(R, S) ).

fibonacci(0, 0).
fibonacci(1, 1).
fibonacci(N, F) :-
    N > 1, A is N - 1, B is N - 2,
    fibonacci(A, X) & fibonacci(B, Y),
    F is X + Y.
",
    "% Variables in answers, shared ones, and the occurs check.
equal(X, X).
pair(1, _First, _Second).
list([X, Y | Rest], X, Y, Rest).
",
];
